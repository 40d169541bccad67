//! The ports of a module: its inputs, and its outputs with their nets, in the order of the header. A
//! port is what its name is declared as, wherever it is declared; that it is declared once, and only
//! so, is left to others.
ghost use Rattle.std.specs.Prelude.{◌≡◌, map, IfOk};
ghost use Rattle.bx_verilog.specs.Mentions.{number, inputs as inputs_of, outputs as outputs_of};
ghost use Rattle.bx_verilog.specs.Uses.{AreUses};

use crate::names::{Names, copy};
use crate::uses::Uses;
use bx_logic::{Name, NoMemory};
use bx_syntax::Module;
use std::alloc::Global;

/// The names of the inputs.
pub(crate) fn inputs(
    alloc: Global,
    names: &Names,
    uses: &[Uses],
    module: &Module,
) -> Result<Vec<Name>, NoMemory>
    requires { AreUses «module».now names.now uses.now }
    ensures { IfOk result (λ inputs. inputs.items ≡ inputs_of «module».now) }
{
    let mut inputs = Vec::new(alloc);
    for port in module.ports() {
        let name = port.name.as_slice();
        if uses[names.number(name) as usize].input > 0 {
            inputs.push(copy(alloc, name)?)?;
        }
    }
    Ok(inputs)
}

/// The names of the outputs with the numbers of their nets.
pub(crate) fn outputs(
    alloc: Global,
    names: &Names,
    uses: &[Uses],
    module: &Module,
) -> Result<Vec<(Name, u32)>, NoMemory>
    requires { AreUses «module».now names.now uses.now }
    ensures { IfOk result (λ outputs. outputs.items ≡
        map (λ n. (n, number «module».now n)) (outputs_of «module».now)) }
{
    let mut outputs = Vec::new(alloc);
    for port in module.ports() {
        let name = port.name.as_slice();
        let number = names.number(name);
        if uses[number as usize].output > 0 {
            outputs.push((copy(alloc, name)?, number))?;
        }
    }
    Ok(outputs)
}
