//! What drives the nets of a module: inputs and gates drive the names, and behind these stand the nets
//! of the gates' arguments. It promises what the definition of a module's net says. That no name has
//! two drivers and none lacks one is left to others: here the last gate counts, and a name that nothing
//! drives is 0.
ghost use Rattle.std.specs.Prelude.{◌≡◌, ◌+◌, ◌<◌, [], ◌∷◌, List, length, map, flat_map, position, slice_set, false, if◌then◌else◌, IfOk, OnOk};
ghost use Rattle.std.specs.List.{list_any};
ghost use Rattle.std.specs.Str.{bytes_eq};
ghost use Rattle.bx_logic.specs.declared.driver.Driver.{Driver as NetDriver};
ghost use Rattle.bx_logic.specs.declared.driver.Driver.TheVariants.{Input, Constant, Gate};
ghost use Rattle.bx_logic.specs.Lists.{AreDistinct};
ghost use Rattle.bx_syntax.specs.Parts.{part as part_tree};
ghost use Rattle.bx_verilog.specs.Formulas.{Text};
ghost use Rattle.bx_verilog.specs.Drives.{drives_of, drives as drives_in};
ghost use Rattle.bx_verilog.specs.Mentions.{names as names_in, inputs as inputs_in};
ghost use Rattle.bx_verilog.specs.Elaboration.{chosen, all_own, inner_size, name_count, net_of};
ghost use Rattle.bx_verilog.specs.Shown.{number_among};
ghost use Rattle.bx_verilog.specs.Lowering.{shown_drive, shown_drives, AreDriversToo, HaveArguments, NetsFit, formulas, part_drives, item_drives};

use crate::expression::nets_of_expressions;
use crate::names::Names;
use bx_logic::{Args, Driver, Name, NoMemory, Op};
use bx_syntax::Module;
use bx_syntax::tree::{Expr, Part};
use std::alloc::Global;
use std::slice;

/// The drivers of a module's nets.
pub(crate) fn drivers(
    alloc: Global,
    names: &Names,
    inputs: &[Name],
    module: &Module,
) -> Result<Vec<Driver>, NoMemory>
    requires names { names.now ≡ names_in «module».now }
    requires inputs { inputs.now ≡ inputs_in «module».now }
    requires some { HaveArguments (drives_in «module».now) }
    requires few { length inputs.now < 4294967296 }
    requires fits { name_count «module».now + inner_size (drives_in «module».now) < 4294967296 }
    ensures { IfOk result (λ drivers. drivers.items ≡ (net_of «module».now).drivers) }
{
    let mut drivers = NetDrivers {
        named: input_drivers(alloc, names, inputs)?,
        inner: Vec::new(alloc),
    };
    drivers.drive_items(alloc, names, module.items())?;
    drivers.named.append(&mut drivers.inner)?;
    Ok(drivers.named)
}

// The drivers of the names as far as inputs drive them. Where a name stands twice among the inputs, its
// first place counts.
fn input_drivers(alloc: Global, names: &Names, inputs: &[Name]) -> Result<Vec<Driver>, NoMemory>
    requires distinct { AreDistinct names.now }
    requires few { length inputs.now < 4294967296 }
    ensures { IfOk result (λ named. named.items ≡
        map (λ n. chosen None (position (bytes_eq n) inputs.now)) names.now) }
{
    let mut named = constants(alloc, names)?;
    // From the last to the first: what is set later stays, and of two equal names the definition counts the
    // first place.
    for i in (0..inputs.len() as u32).rev() {
        set_driver(&mut named, names, &inputs[i as usize], Driver::Input(i));
    }
    Ok(named)
}

// A constant for each name.
fn constants(alloc: Global, names: &Names) -> Result<Vec<Driver>, NoMemory>
    ensures { IfOk result (λ named. named.items ≡ map (λ n. Constant false) names.now) }
{
    let mut named = Vec::with_capacity(alloc, names.len() as usize)?;
    for _ in 0..names.len() {
        named.push(Driver::Constant(false))?;
    }
    Ok(named)
}

// The drivers of the names, by their numbers, and those of the nets behind them.
#[derive(Drop)]
struct NetDrivers {
    named: Vec<Driver>,
    inner: Vec<Driver>,
}

impl NetDrivers {
    // Adds what items say.
    fn drive_items(
        &mut self,
        alloc: Global,
        names: &Names,
        items: &[Vec<Part>],
    ) -> Result<(), NoMemory>
        requires distinct { AreDistinct names.now }
        requires some { HaveArguments (flat_map item_drives items.now) }
        requires fits { NetsFit names.now self.old.inner.items
            (inner_size (flat_map item_drives items.now)) }
        ensures { OnOk result
            (AreDriversToo names.now (flat_map item_drives items.now) self.old self.new) }
    {
        for item in items {
            self.drive_parts(alloc, names, item)?;
        }
        Ok(())
    }

    // Adds what the parts of an item say.
    fn drive_parts(&mut self, alloc: Global, names: &Names, parts: &[Part]) -> Result<(), NoMemory>
        requires distinct { AreDistinct names.now }
        requires some { HaveArguments (flat_map part_drives parts.now) }
        requires fits { NetsFit names.now self.old.inner.items
            (inner_size (flat_map part_drives parts.now)) }
        ensures { OnOk result
            (AreDriversToo names.now (flat_map part_drives parts.now) self.old self.new) }
    {
        for part in parts {
            if let Some(drive) = drive_of(part) {
                self.drive(alloc, names, drive)?;
            }
        }
        Ok(())
    }

    // Adds what one drive says.
    fn drive(&mut self, alloc: Global, names: &Names, drive: Drive<'_>) -> Result<(), NoMemory>
        requires distinct { AreDistinct names.now }
        requires some { 0 < length drive.arguments.now }
        requires fits { NetsFit names.now self.old.inner.items
            (all_own (formulas drive.arguments.now)) }
        ensures { OnOk result
            (AreDriversToo names.now (shown_drive drive.entry ∷ []) self.old self.new) }
    {
        let nets = nets_of_expressions(alloc, names, &mut self.inner, drive.arguments)?;
        drive_all(
            alloc,
            &mut self.named,
            names,
            drive.targets,
            drive.op,
            &nets,
        )
    }
}

// Names that are driven by one operation over the same expressions.
#[derive(Clone, Copy)]
struct Drive<'a> {
    targets: &'a [Name],
    op: Op,
    arguments: &'a [Expr],
}

// What a part of a module drives, and how.
fn drive_of(part: &Part) -> Option<Drive<'_>>
    ensures { drives_of (part_tree part.now) ≡ shown_drives result }
{
    let (op, targets, arguments) = match part {
        Part::Declaration(..) | Part::Wire(_, None) => return None,
        Part::Wire(name, Some(expr)) | Part::Assign(name, expr) => {
            (Op::Buf, slice::from_ref(name), slice::from_ref(expr))
        }
        Part::Gate(op, name, exprs) => (*op, slice::from_ref(name), exprs.as_slice()),
        Part::Copies(op, names, expr) => (*op, names.as_slice(), slice::from_ref(expr)),
    };
    Some(Drive {
        targets,
        op,
        arguments,
    })
}

// Sets the driver of each of these names: the gate of an operation over these nets.
fn drive_all(
    alloc: Global,
    named: &mut Vec<Driver>,
    names: &Names,
    targets: &[Name],
    op: Op,
    nets: &[u32],
) -> Result<(), NoMemory>
    requires distinct { AreDistinct names.now }
    requires some { 0 < length nets.now }
    ensures { OnOk result ((F : Text → NetDriver) → named.old.items ≡ map F names.now
        → named.new.items ≡ map
        (λ n. if list_any (bytes_eq n) targets.now then Gate op nets.now else F n) names.now) }
{
    for target in targets {
        let arguments = Args::new(nets.to_vec(alloc)?);
        set_driver(named, names, target, Driver::Gate(op, arguments));
    }
    Ok(())
}

// Sets the driver of a name, if it is one of these.
fn set_driver(named: &mut Vec<Driver>, names: &Names, name: &Name, driver: Driver)
    ensures { named.new.items ≡ slice_set named.old.items (number_among names.now name.now) driver }
{
    if let Some(place) = named.get_mut(names.number(name.as_slice()) as usize) {
        *place = driver;
    }
}
