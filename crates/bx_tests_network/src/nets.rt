//! Nets written out by their drivers, for the tests of nets and of the mapping. What makes a net is tested first.
ghost use Rattle.std.specs.Prelude.{◌≡◌, ◌<◌, IsTrue, IfOk, All, length, map};
ghost use Rattle.bx_logic.specs.Nets.{HasArity};
ghost use Rattle.bx_logic.specs.Ascending.{MayStandAt, IsAscending};

use bx_logic::{Args, Driver, Name, Net, Op};
use std::alloc::Global;
use std::process::Abort;
use std::test::Fail;

/// A net behind the inputs.
#[derive(Clone, Copy)]
pub enum Item {
    Bit(bool),
    Gate(Op, &'static [u32]),
}

/// So many inputs, and these nets behind them.
pub fn drivers_of(
    rt: &impl Abort,
    alloc: Global,
    inputs: u32,
    items: &[Item],
) -> Result<Vec<Driver>, Fail> {
    let mut drivers = Vec::new(alloc);
    for i in 0..inputs {
        drivers.push(Driver::Input(i))?;
    }
    for &item in items {
        drivers.push(driver(rt, alloc, item)?)?;
    }
    Ok(drivers)
}

fn driver(rt: &impl Abort, alloc: Global, item: Item) -> Result<Driver, Fail> {
    match item {
        Item::Bit(bit) => Ok(Driver::Constant(bit)),
        Item::Gate(op, arguments) => gate(rt, op, arguments.to_vec(alloc)?),
    }
}

/// A gate that reads these nets.
pub fn gate(rt: &impl Abort, op: Op, nets: Vec<u32>) -> Result<Driver, Fail> {
    assert!(rt; !nets.is_empty());
    Ok(Driver::Gate(op, Args::new(nets)))
}

/// A net that is called `m`, with inputs `i0`, `i1` and so on, and outputs that are all called `y`.
pub fn net_of(
    rt: &impl Abort,
    alloc: Global,
    inputs: u32,
    drivers: Vec<Driver>,
    outputs: &[u32],
) -> Result<Net, Fail> {
    assert!(rt; makes_a_net(inputs, &drivers, outputs));
    let names = input_names(alloc, inputs)?;
    let named = output_names(alloc, outputs)?;
    Ok(Net::new(Name::new(b"m".to_vec(alloc)?), names, named, drivers))
}

// Outputs that have these nets.
fn output_names(alloc: Global, outputs: &[u32]) -> Result<Vec<(Name, u32)>, Fail>
    ensures { IfOk result (λ named. map (λ output. output.1) named.items ≡ outputs.now) }
{
    let mut named = Vec::new(alloc);
    for net in outputs {
        named.push((Name::new(b"y".to_vec(alloc)?), *net))?;
    }
    Ok(named)
}

// Names for so many inputs.
fn input_names(alloc: Global, count: u32) -> Result<Vec<Name>, Fail>
    ensures { IfOk result (λ names. length names.items ≡ count) }
{
    let mut names = Vec::new(alloc);
    for i in 0..count {
        names.push(Name::new(format!(in alloc; "i{i}")?.into_bytes()))?;
    }
    Ok(names)
}

// Whether these lists make a net, with these outputs.
fn makes_a_net(inputs: u32, drivers: &[Driver], outputs: &[u32]) -> bool
    ensures ascending { IsTrue result → IsAscending inputs drivers.now }
    ensures outputs { IsTrue result → All (λ n. n < length drivers.now) outputs.now }
    ensures few_nets { IsTrue result → length drivers.now < 4294967296 }
    ensures few_outputs { IsTrue result → length outputs.now < 4294967296 }
{
    let within = outputs.iter().all(|net| (*net as usize) < drivers.len());
    let few = drivers.len() < 1 << 32 && outputs.len() < 1 << 32;
    within && few && is_ascending(inputs as usize, drivers)
}

fn is_ascending(inputs: usize, drivers: &[Driver]) -> bool
    ensures { IsTrue result → IsAscending inputs drivers.now }
{
    for (n, driver) in drivers.iter().enumerate() {
        if !may_stand_at(inputs, n, driver) {
            return false;
        }
    }
    inputs <= drivers.len()
}

fn may_stand_at(inputs: usize, n: usize, driver: &Driver) -> bool
    ensures { IsTrue result → MayStandAt inputs n driver.now }
{
    match driver {
        Driver::Input(i) => n < inputs && *i as usize == n,
        Driver::Constant(_) => inputs <= n,
        Driver::Gate(op, args) => {
            let reads_earlier = args.as_slice().iter().all(|m| (*m as usize) < n);
            inputs <= n && has_arity(*op, args.as_slice()) && reads_earlier
        }
    }
}

fn has_arity(op: Op, args: &[u32]) -> bool
    ensures { IsTrue result → HasArity op args.now }
{
    match op {
        Op::Buf | Op::Not => args.len() == 1,
        _ => !args.is_empty(),
    }
}
