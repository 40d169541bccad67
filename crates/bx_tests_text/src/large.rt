//! Tests of `bx_verilog`: that large modules have nets, and that no names take much longer than others.
ghost use Rattle.std.specs.Prelude.{◌<◌};

use crate::asserts::is_number;
use crate::modules::net_of;
use crate::verilog::gives;
use bx_logic::Net;
use std::alloc::{AllocError, Global};
use std::hash::{BuildHasher, BuildHasherDefault, FoldHasher};
use std::process::Abort;
use std::test::Fail;
use std::time::CpuClock;

#[test]
fn a_deep_module_has_a_net(rt: HostRuntime) -> Result<(), Fail> {
    let text = deep(rt.alloc(), 2_000)?;
    let net = net_of(rt.alloc(), text.as_str())?;
    is_number(&rt, u64::from(net.len()), 4_002);
    passes_on(&rt, rt.alloc(), &net)
}

#[test]
fn a_wide_module_has_a_net(rt: HostRuntime) -> Result<(), Fail> {
    let text = wide(rt.alloc(), 20_000)?;
    let net = net_of(rt.alloc(), text.as_str())?;
    is_number(&rt, u64::from(net.len()), 20_001);
    passes_on(&rt, rt.alloc(), &net)
}

// The output has the value of the input.
fn passes_on(rt: &impl Abort, alloc: Global, net: &Net) -> Result<(), Fail> {
    gives(rt, alloc, "0", net, &[false], &[false])?;
    gives(rt, alloc, "1", net, &[true], &[true])
}

// A module of so many wires, each the negation of the one before it.
fn deep(alloc: Global, count: u32) -> Result<String, AllocError> {
    let mut text = String::from_str(alloc, "module m(a,y);input a;output y;wire w0=~a")?;
    for wire in 1..count {
        push_negation(alloc, &mut text, wire)?;
    }
    let last = count.saturating_sub(1);
    let end = format!(in alloc; ";buf(y,w{last});endmodule")?;
    text.push_str(end.as_str())?;
    Ok(text)
}

fn push_negation(alloc: Global, text: &mut String, wire: u32) -> Result<(), AllocError>
    requires { 0 < wire }
{
    let negation = format!(in alloc; ",w{wire}=~w{}", wire - 1)?;
    text.push_str(negation.as_str())
}

// A module of one expression and one gate with so many operands each.
fn wide(alloc: Global, count: u32) -> Result<String, AllocError> {
    let mut text = String::from_str(alloc, "module m(a,y);input a;output y;xor(y,a")?;
    for _ in 1..count {
        text.push_str(",a")?;
    }
    for _ in 1..count {
        text.push_str("^a")?;
    }
    text.push_str(");endmodule")?;
    Ok(text)
}

type ShortName = [u8; 6];

const NAMES: usize = 36_000;

// How many groups an index of so many names has.
const GROUPS: u64 = 4_096;

#[test]
fn names_that_collide_cost_what_others_do(rt: HostRuntime) -> Result<(), Fail> {
    let alloc = rt.alloc();
    let colliding = reading_time(&rt, alloc, true)?;
    let others = reading_time(&rt, alloc, false)?;
    // An index by the names' own hashes takes some twenty times as long for those that collide. (`rt try`
    // checks each condition on the way, and has no time for so many names.)
    let bound = others.saturating_mul(4).saturating_add(50_000);
    assert!(rt; colliding < bound, "{colliding} and {others} microseconds");
    Ok(())
}

// The microseconds that it takes to read a module with wires whose names collide, or with others.
fn reading_time(rt: &(impl Abort + CpuClock), alloc: Global, colliding: bool) -> Result<u64, Fail> {
    let text = wires(alloc, &short_names(alloc, colliding)?)?;
    let start = rt.thread_cpu_time()?;
    let nets = count_of_nets(alloc, text.as_str())?;
    let end = rt.thread_cpu_time()?;
    is_number(rt, nets, NAMES as u64 + 2);
    let Some(time) = end.checked_sub(start) else {
        return Err("a clock goes on".into());
    };
    Ok(u64::try_from(time.as_micros())?)
}

fn count_of_nets(alloc: Global, text: &str) -> Result<u64, Fail> {
    let net = net_of(alloc, text)?;
    Ok(u64::from(net.len()))
}

// A module with these wires, which nothing drives or reads.
fn wires(alloc: Global, names: &[ShortName]) -> Result<String, Fail> {
    let mut text = format!(in alloc; "module m(a,y);input a;output y;buf(y,a)")?;
    for name in names {
        text.push_str(";wire ")?;
        for byte in name {
            text.push(char::from(*byte))?;
        }
    }
    text.push_str(";endmodule")?;
    Ok(text)
}

// Names that collide in the maps of the toolchain, or that do not. They are found by trying.
fn short_names(alloc: Global, colliding: bool) -> Result<Vec<ShortName>, Fail> {
    let mut names = Vec::new(alloc);
    for number in 0..1_000_000 {
        let name = short_name(number);
        if collides(&name) == colliding {
            names.push(name)?;
        }
        if names.len() == NAMES {
            return Ok(names);
        }
    }
    Err("there are enough such names".into())
}

// The letters that stand for a number.
fn short_name(number: u32) -> ShortName {
    let mut name = [b'a'; 6];
    let mut rest = number;
    for letter in name.iter_mut() {
        *letter = b'a' + (rest % 26) as u8;
        rest /= 26;
    }
    name
}

// Whether a map looks a name up from a group in the first sixteenth on. Where it does so with all of its
// names, it goes past nearly all that came before.
fn collides(name: &[u8]) -> bool {
    let hash = BuildHasherDefault::<FoldHasher>::new().hash_one(name);
    (hash ^ hash >> 32) % GROUPS < GROUPS / 16
}
