//! From a parsed module to its net. It promises the net of a module in which nothing is wrong, and the
//! first fault of any other, unless memory runs out. Reading the text is left to `bx_syntax`, and what a
//! net computes to `bx_logic`.
ghost use Rattle.std.specs.Prelude.{◌≡◌, ◌≢◌, Ok, Err, map, IfOk, IfErr};
ghost use Rattle.bx_logic.specs.Nets.{IsAcyclic};
ghost use Rattle.bx_syntax.specs.Texts.{IsTree};
ghost use Rattle.bx_verilog.specs.Elaboration.{Meaning, Elaborates, IsTold, net_of};
ghost use Rattle.bx_verilog.specs.Faults.{IsDriven};
ghost use Rattle.bx_verilog.specs.Mentions.{firsts, inputs as inputs_in, mentions as mentions_of, names as names_in};
ghost use Rattle.bx_verilog.specs.Shown.{shown};
ghost use Rattle.bx_verilog.specs.Uses.{AreUses};

use crate::check::check;
use crate::drivers::drivers;
use crate::fault::NetFault;
use crate::mentions::{Mention, mentions};
use crate::names::{Names, copy};
use crate::ports::{inputs, outputs};
use crate::uses::{Uses, uses_of};
use bx_logic::{Driver, Name, Net, NoMemory, least_net_on_cycle};
use bx_syntax::Module;
use std::alloc::Global;

/// The net of a module: its names are numbered by first appearance, and what its expressions have
/// besides names are nets behind them.
///
/// # Errors
///
/// The first fault of the module, or `NoMemory`.
pub fn to_net(alloc: Global, module: &Module) -> Result<Net, NetFault>
    // What is answered is the net of a module in which nothing is wrong.
    ensures found { IfOk result (λ net. Elaborates «module».now (Ok net)) }
    // The fault that is answered is the first of the module.
    ensures faults { IfErr result (IsTold «module».now) }
    // What the module gives is answered, unless memory runs out.
    ensures exact { (r : Meaning) → Elaborates «module».now r →
        result ≢ Err NetFault.NoMemory → result ≡ r }
{
    let mentions = mentions(alloc, module)?;
    let names = Names::of(alloc, &mentions)?;
    net_of_names(alloc, &names, &mentions, module)
}

// The net of a module with these names, which stand there for what is mentioned.
fn net_of_names(
    alloc: Global,
    names: &Names,
    mentions: &[Mention],
    module: &Module,
) -> Result<Net, NetFault>
    requires tree { IsTree «module».now }
    requires mentions { map shown mentions.now ≡ mentions_of «module».now }
    requires names { names.now ≡ firsts (map (λ x. x.name.now) mentions.now) }
    ensures found { IfOk result (λ net. Elaborates «module».now (Ok net)) }
    ensures faults { IfErr result (IsTold «module».now) }
{
    let uses = uses_of(alloc, names, mentions)?;
    check(alloc, names, &uses)?;
    checked_net(alloc, names, &uses, module)
}

// The net of a module whose names have these uses, none of which is wrong.
fn checked_net(
    alloc: Global,
    names: &Names,
    uses: &[Uses],
    module: &Module,
) -> Result<Net, NetFault>
    requires tree { IsTree «module».now }
    requires uses { AreUses «module».now names.now uses.now }
    requires driven { IsDriven «module».now }
    ensures found { IfOk result (λ net. Elaborates «module».now (Ok net)) }
    ensures faults { IfErr result (IsTold «module».now) }
{
    let inputs = inputs(alloc, names, uses, module)?;
    let drivers = acyclic_drivers(alloc, names, &inputs, module)?;
    Ok(net_with(alloc, names, uses, module, inputs, drivers)?)
}

// The drivers of the nets of a module with these names and inputs, unless a name depends on itself.
fn acyclic_drivers(
    alloc: Global,
    names: &Names,
    inputs: &[Name],
    module: &Module,
) -> Result<Vec<Driver>, NetFault>
    requires tree { IsTree «module».now }
    requires driven { IsDriven «module».now }
    requires names { names.now ≡ names_in «module».now }
    requires inputs { inputs.now ≡ inputs_in «module».now }
    ensures drivers { IfOk result (λ drivers. drivers.items ≡ (net_of «module».now).drivers) }
    ensures acyclic { IfOk result (λ drivers. IsAcyclic drivers.items) }
    ensures faults { IfErr result (IsTold «module».now) }
{
    let drivers = drivers(alloc, names, inputs, module)?;
    if let Some(net) = least_net_on_cycle(alloc, &drivers)? {
        return Err(NetFault::Cycle(copy(alloc, names.name(net))?));
    }
    Ok(drivers)
}

// The net of a module with these inputs and drivers, and names that have these uses.
fn net_with(
    alloc: Global,
    names: &Names,
    uses: &[Uses],
    module: &Module,
    inputs: Vec<Name>,
    drivers: Vec<Driver>,
) -> Result<Net, NoMemory>
    requires driven { IsDriven «module».now }
    requires uses { AreUses «module».now names.now uses.now }
    requires inputs { inputs.items ≡ inputs_in «module».now }
    requires drivers { drivers.items ≡ (net_of «module».now).drivers }
    requires acyclic { IsAcyclic drivers.items }
    ensures { IfOk result (λ net. Elaborates «module».now (Ok net)) }
{
    let name = copy(alloc, module.name().as_slice())?;
    let outputs = outputs(alloc, names, uses, module)?;
    Ok(Net::new(name, inputs, outputs, drivers))
}
