//! Tests of the search for nets that depend on themselves: what is found, that it takes no longer on long chains
//! and wide gates, and that the ranks of the components lead to it.
ghost use Rattle.std.specs.Prelude.{◌<◌, IsTrue, All, IfOk, length, vec_len};
ghost use Rattle.bx_logic.specs.Nets.{arguments_of};
ghost use Rattle.bx_logic.specs.Cycles.{ReadsNetsOnly};

use crate::asserts::{is_net_in_row, is_number};
use bx_logic::ranks::{component_ranks, ranked_until};
use bx_logic::{Args, Driver, NoMemory, Op, least_net_on_cycle};
use std::alloc::Global;
use std::process::Abort;
use std::test::Fail;

// What each net reads, and the least net that depends on itself.
const NETS: &[(&[&[u32]], Option<u32>)] = &[
    (&[], None),
    (&[&[1, 2], &[2], &[]], None),
    // a net that reads itself
    (&[&[], &[1]], Some(1)),
    // a cycle of two, and a net that only reads it, numbered after it and before it
    (&[&[], &[2], &[1], &[0, 1]], Some(1)),
    (&[&[3, 1], &[2], &[1], &[]], Some(1)),
    // net 0 lies between two cycles
    (&[&[3], &[2, 0], &[1], &[4], &[3]], Some(1)),
    // two cycles, of which the one with the least net is found
    (&[&[1], &[], &[5], &[4], &[3], &[2]], Some(2)),
    // cycles that share a net
    (&[&[1], &[2, 4], &[3], &[1], &[0]], Some(0)),
    (&[&[6], &[2], &[3, 5], &[4], &[2, 6], &[1], &[]], Some(1)),
];

#[test]
fn the_answer_is_on_a_cycle_and_least(rt: HostRuntime) -> Result<(), Fail> {
    for (row, &(rows, wanted)) in NETS.iter().enumerate() {
        let drivers = nets(rt.alloc(), rows)?;
        is_net_in_row(&rt, row, least(&rt, rt.alloc(), &drivers)?, wanted);
    }
    Ok(())
}

// How long a chain is, what its last net reads, and the answer.
const CHAINS: &[(u32, &[u32], Option<u32>)] = &[
    (1_000, &[0], Some(0)),
    (250_000, &[], None),
    (250_000, &[0], Some(0)),
    (250_000, &[249_999], Some(249_999)),
];

#[test]
fn long_chains_are_fast(rt: HostRuntime) -> Result<(), Fail> {
    for (row, &(count, last, wanted)) in CHAINS.iter().enumerate() {
        let drivers = chain(rt.alloc(), count, last)?;
        is_net_in_row(&rt, row, least(&rt, rt.alloc(), &drivers)?, wanted);
    }
    Ok(())
}

#[test]
fn wide_gates_are_fast(rt: HostRuntime) -> Result<(), Fail> {
    let drivers = chain_under_a_wide_gate(rt.alloc())?;
    is_net_in_row(&rt, 0, least(&rt, rt.alloc(), &drivers)?, None);
    Ok(())
}

#[test]
fn ranks_lead_to_the_answer_in_each_list_of_four(rt: HostRuntime) -> Result<(), Fail> {
    for bits in 0..65_536 {
        let drivers = nets_of_bits(rt.alloc(), 4, bits)?;
        least(&rt, rt.alloc(), &drivers)?;
    }
    Ok(())
}

#[test]
fn ranks_lead_to_the_answer_in_sparse_lists_of_six(rt: HostRuntime) -> Result<(), Fail> {
    let mut state: u64 = 1;
    for _ in 0..50_000 {
        let last = state;
        state = state
            .wrapping_mul(6_364_136_223_846_793_005)
            .wrapping_add(1);
        let drivers = nets_of_bits(rt.alloc(), 6, last >> 24 & state >> 28)?;
        least(&rt, rt.alloc(), &drivers)?;
    }
    Ok(())
}

// The answer, to which the ranks lead with no walk from any net before it.
fn least(rt: &impl Abort, alloc: Global, drivers: &[Driver]) -> Result<Option<u32>, NoMemory> {
    assert!(rt; can_be_asked_of(drivers));
    let answer = least_net_on_cycle(alloc, drivers)?;
    let ranked = ranked(alloc, drivers)?;
    let wanted = answer.unwrap_or(drivers.len() as u32);
    is_number(rt, u64::from(ranked), u64::from(wanted));
    Ok(answer)
}

// Up to which net the ranks show that there is none.
fn ranked(alloc: Global, drivers: &[Driver]) -> Result<u32, NoMemory>
    requires few { length drivers.now < 4294967296 }
    requires reads { ReadsNetsOnly drivers.now }
{
    let ranks = component_ranks(alloc, drivers)?;
    Ok(ranked_until(drivers, &ranks))
}

// Whether there are few enough nets, and each reads only such.
fn can_be_asked_of(drivers: &[Driver]) -> bool
    ensures few { IsTrue result → length drivers.now < 4294967296 }
    ensures reads { IsTrue result → ReadsNetsOnly drivers.now }
{
    drivers.len() < 4_294_967_296 && reads_nets_only(drivers)
}

fn reads_nets_only(drivers: &[Driver]) -> bool
    ensures { IsTrue result → ReadsNetsOnly drivers.now }
{
    for driver in drivers {
        if !reads_below(driver, drivers.len()) {
            return false;
        }
    }
    true
}

// Whether all that a driver reads are smaller numbers than this.
fn reads_below(driver: &Driver, bound: usize) -> bool
    ensures { IsTrue result → All (λ m. m < bound) (arguments_of driver.now) }
{
    match driver {
        Driver::Input(_) | Driver::Constant(_) => true,
        Driver::Gate(_, args) => args.as_slice().iter().all(|net| (*net as usize) < bound),
    }
}

// A gate that reads these nets, or a constant where there are none.
fn driver(alloc: Global, arguments: &[u32]) -> Result<Driver, NoMemory> {
    if arguments.is_empty() {
        return Ok(Driver::Constant(false));
    }
    Ok(Driver::Gate(Op::And, Args::new(arguments.to_vec(alloc)?)))
}

// Nets that read these.
fn nets(alloc: Global, rows: &[&[u32]]) -> Result<Vec<Driver>, NoMemory> {
    let mut drivers = Vec::new(alloc);
    for row in rows {
        drivers.push(driver(alloc, *row)?)?;
    }
    Ok(drivers)
}

// So many nets, of which each reads the next one and the last reads these.
fn chain(alloc: Global, count: u32, last: &[u32]) -> Result<Vec<Driver>, NoMemory> {
    let mut drivers = Vec::new(alloc);
    for next in 1..count {
        drivers.push(driver(alloc, &[next])?)?;
    }
    drivers.push(driver(alloc, last)?)?;
    Ok(drivers)
}

// A chain, and a gate that reads each of its nets but the first some five hundred times.
fn chain_under_a_wide_gate(alloc: Global) -> Result<Vec<Driver>, NoMemory> {
    let mut wide = Vec::new(alloc);
    for argument in 0..520_000 {
        wide.push(1 + argument % 1_000)?;
    }
    let mut drivers = chain(alloc, 1_001, &[])?;
    drivers.push(driver(alloc, &wide)?)?;
    Ok(drivers)
}

// So many nets, of which each reads those whose bits are set among its own as many bits.
fn nets_of_bits(alloc: Global, count: u32, bits: u64) -> Result<Vec<Driver>, NoMemory> {
    let mut drivers = Vec::new(alloc);
    let mut rest = bits;
    for _ in 0..count {
        let arguments = numbers_of_bits(alloc, count, rest)?;
        drivers.push(driver(alloc, &arguments)?)?;
        rest = rest.checked_shr(count).unwrap_or(0);
    }
    Ok(drivers)
}

// The numbers below this one whose bits are set.
fn numbers_of_bits(alloc: Global, count: u32, bits: u64) -> Result<Vec<u32>, NoMemory> {
    let mut numbers = Vec::new(alloc);
    let mut rest = bits;
    for number in 0..count {
        if rest % 2 == 1 {
            numbers.push(number)?;
        }
        rest /= 2;
    }
    Ok(numbers)
}
