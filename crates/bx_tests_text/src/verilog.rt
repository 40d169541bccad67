//! Tests of `bx_verilog`: the nets of modules where there is memory, what they give, and the first fault of
//! others. The faults and values are those that Verilog has for these texts.
ghost use Rattle.std.specs.Prelude.{◌<◌, length};

use crate::asserts::{
    are_nets, are_values_in, is_bytes, is_bytes_in, is_number, is_so, is_text_in,
};
use crate::modules::{fault_of, net_of, text_of};
use bx_logic::{Driver, Net, Op};
use bx_verilog::NetFault;
use std::alloc::Global;
use std::process::Abort;
use std::test::Fail;

// What stands behind `module m`, and the first fault of the module: its kind, and the name that has it.
const FAULTS: &[(&str, &str, &str)] = &[
    (
        "(a, y); input a; output y; assign y=a; not(y,a);",
        "two drivers",
        "y",
    ),
    (
        "(a, y); input a; output y; assign y=a; not(p,q); not(q,p);",
        "cycle",
        "p",
    ),
    (
        "(a, y); input a; output y; assign y = a & k;",
        "no driver",
        "k",
    ),
    ("(a, y); input a; output y;", "no driver", "y"),
    ("(a,a); input a;", "bad port", "a"),
    ("(a); input a;", "no output", ""),
    (
        "(a, y); input a; output y; and (y, a, p); not (p, q); not (q, p);",
        "cycle",
        "p",
    ),
    (
        "(a, y); input a; output y; wire q; assign y = a; not (p, q); not (q, p);",
        "cycle",
        "q",
    ),
    (
        "(a, y); input a; output y; assign y = a, a = y;",
        "two drivers",
        "a",
    ),
    ("(a, y); input a; output y; assign y = y;", "cycle", "y"),
    (
        "(a, y); input a; output a, y; assign y = a;",
        "bad port",
        "a",
    ),
    ("(a, y); input a; assign y = a;", "bad port", "y"),
    (
        "(a, y); input a; output y; input b; assign y = a;",
        "bad port",
        "b",
    ),
    (
        "(input a, output y); input a; assign y = a;",
        "bad port",
        "a",
    ),
    (
        "(a, y); input a; output y; wire w; assign y = a | w;",
        "no driver",
        "w",
    ),
    (
        "(a, y); input a; output y; buf (y, p, a), (p, y);",
        "two drivers",
        "p",
    ),
    (
        "(a, y); input a; output y; wire w = ~w; assign y = a;",
        "cycle",
        "w",
    ),
];

#[test]
fn the_first_fault_is_answered(rt: HostRuntime) -> Result<(), Fail> {
    for &(item, kind, name) in FAULTS {
        let text = text_of(rt.alloc(), item)?;
        let fault = fault_of(rt.alloc(), text.as_str())?;
        is_fault(&rt, item, &fault, kind, name);
    }
    Ok(())
}

// What a fault says, and of which name.
fn is_fault(rt: &impl Abort, item: &str, fault: &NetFault, kind: &str, name: &str) {
    let (found_kind, found_name) = parts(fault);
    is_text_in(rt, item, found_kind, kind);
    is_bytes_in(rt, item, found_name, name);
}

fn parts(fault: &NetFault) -> (&str, &[u8]) {
    match fault {
        NetFault::BadPort(name) => ("bad port", name.as_slice()),
        NetFault::NoOutput => ("no output", &[]),
        NetFault::TwoDrivers(name) => ("two drivers", name.as_slice()),
        NetFault::NoDriver(name) => ("no driver", name.as_slice()),
        NetFault::Cycle(name) => ("cycle", name.as_slice()),
        NetFault::NoMemory => ("no memory", &[]),
    }
}

// What stands behind `module m`, values of its inputs, and the values of its outputs.
const VALUES: &[(&str, &[bool], &[bool])] = &[
    (
        "(a, b, c, y); input a, b, c; output y; nand (y, a, b, c);",
        &[true, true, false],
        &[true],
    ),
    (
        "(a, b, c, y); input a, b, c; output y; nand (y, a, b, c);",
        &[true, true, true],
        &[false],
    ),
    (
        "(a, b, c, y); input a, b, c; output y; xnor (y, a, b, c);",
        &[true, true, false],
        &[true],
    ),
    (
        "(a, b, c, y); input a, b, c; output y; xnor (y, a, b, c);",
        &[true, false, false],
        &[false],
    ),
    ("(a, y); input a; output y; assign y = a;", &[true], &[true]),
    (
        "(a, y); input a; output y; wire w = ~a; assign y = w;",
        &[true],
        &[false],
    ),
    (
        "(a, y); input a; output y; assign y = a ^ 1'b1;",
        &[true],
        &[false],
    ),
    ("(y); output y; assign y = 1'b1;", &[], &[true]),
    (
        "(a, b, y); input a, b; output y; assign y = ~a & b;",
        &[false, false],
        &[false],
    ),
    // `&` before `^` and `~^`, and these before `|`: each row has another value in another order.
    (
        "(a, b, c, d, e, y); input a, b, c, d, e; output y; assign y = a | b & c ^ d ~^ e;",
        &[true, false, false, false, true],
        &[true],
    ),
    (
        "(a, b, c, d, e, y); input a, b, c, d, e; output y; assign y = a | b & c ^ d ~^ e;",
        &[true, false, false, true, true],
        &[true],
    ),
    (
        "(a, b, c, d, e, y); input a, b, c, d, e; output y; assign y = a | b & c ^ d ~^ e;",
        &[false, false, false, true, true],
        &[true],
    ),
    (
        "(a, b, c, d, e, y); input a, b, c, d, e; output y; assign y = a | b & c ^ d ~^ e;",
        &[false, true, true, true, true],
        &[false],
    ),
    (
        "(a, b, c, y); input a, b, c; output y; assign y = (a | b) & c;",
        &[true, false, false],
        &[false],
    ),
    (
        "(a, b, y, z); input a, b; output y, z; not (y, z, a & b);",
        &[true, false],
        &[true, true],
    ),
    (
        "(a, y, z); input a; output y, z; buf (y, z, a);",
        &[true],
        &[true, true],
    ),
    (
        "(y, b, z, a); input a, b; output y, z; assign z = a, y = b;",
        &[true, false],
        &[true, false],
    ),
    (
        "(output y, input a); assign y = w; wire w; nor (w, a, a);",
        &[false],
        &[true],
    ),
    (
        "(a, y); input a; output y; wire unused; assign y = a; or (\\z+ , a, y);",
        &[false],
        &[false],
    ),
];

#[test]
fn nets_give_what_their_texts_say(rt: HostRuntime) -> Result<(), Fail> {
    for &(item, bits, wanted) in VALUES {
        let text = text_of(rt.alloc(), item)?;
        let net = net_of(rt.alloc(), text.as_str())?;
        gives(&rt, rt.alloc(), item, &net, bits, wanted)?;
    }
    Ok(())
}

/// The output values of a net for these values of its inputs are those that are wanted in this case.
pub fn gives(
    rt: &impl Abort,
    alloc: Global,
    case: &str,
    net: &Net,
    bits: &[bool],
    wanted: &[bool],
) -> Result<(), Fail> {
    assert!(rt; bits.len() == net.input_count() as usize);
    let mut found = Vec::new(alloc);
    net.eval(alloc, bits, &mut found)?;
    are_values_in(rt, case, &found, wanted);
    Ok(())
}

// Two outputs of one gate, which share an expression.
fn shared(alloc: Global) -> Result<Net, Fail> {
    net_of(
        alloc,
        "module m(a, b, y); input a, b; output y; not (p, q, a & b); or (y, p, q); endmodule",
    )
}

#[test]
fn a_net_has_the_name_of_its_module(rt: HostRuntime) -> Result<(), Fail> {
    let net = shared(rt.alloc())?;
    is_bytes(&rt, net.name().as_slice(), b"m");
    is_number(&rt, u64::from(net.len()), 6);
    Ok(())
}

#[test]
fn inputs_come_in_the_order_of_the_header(rt: HostRuntime) -> Result<(), Fail> {
    let net = shared(rt.alloc())?;
    is_number(&rt, u64::from(net.input_count()), 2);
    is_bytes(&rt, net.input_name(1).as_slice(), b"b");
    Ok(())
}

#[test]
fn an_output_has_its_name(rt: HostRuntime) -> Result<(), Fail> {
    let net = shared(rt.alloc())?;
    is_number(&rt, u64::from(net.output_count()), 1);
    is_bytes(&rt, net.output_name(0).as_slice(), b"y");
    Ok(())
}

#[test]
fn names_come_first(rt: HostRuntime) -> Result<(), Fail> {
    let net = shared(rt.alloc())?;
    is_number(&rt, u64::from(net.output_count()), 1);
    is_number(&rt, u64::from(net.output_net(0)), 2);
    let second = driver_at(&rt, &net, 1);
    is_so(&rt, matches!(second, Driver::Input(1)), true);
    Ok(())
}

#[test]
fn several_outputs_share_an_expression(rt: HostRuntime) -> Result<(), Fail> {
    let net = shared(rt.alloc())?;
    are_gates(
        &rt,
        &net,
        &[(3, "not", &[5]), (4, "not", &[5]), (5, "and", &[0, 1])],
    );
    Ok(())
}

#[test]
fn operators_of_a_level_group_to_the_left(rt: HostRuntime) -> Result<(), Fail> {
    let text = "module m(a, b, c, y); input a, b, c; output y; assign y = a & b & c; endmodule";
    let net = net_of(rt.alloc(), text)?;
    is_number(&rt, u64::from(net.len()), 6);
    are_gates(
        &rt,
        &net,
        &[(3, "buf", &[5]), (4, "and", &[0, 1]), (5, "and", &[4, 2])],
    );
    Ok(())
}

// Nets with these numbers are gates of these operations, which read these nets.
fn are_gates(rt: &impl Abort, net: &Net, rows: &[(u32, &str, &[u32])]) {
    for &(number, name, arguments) in rows {
        is_gate(rt, driver_at(rt, net, number), name, arguments);
    }
}

fn driver_at<'n>(rt: &impl Abort, net: &'n Net, number: u32) -> &'n Driver {
    assert!(rt; number < net.len());
    net.driver(number)
}

fn is_gate(rt: &impl Abort, driver: &Driver, name: &str, arguments: &[u32]) {
    let (found_name, found) = gate_parts(driver);
    is_text_in(rt, name, found_name, name);
    are_nets(rt, found, arguments);
}

fn gate_parts(driver: &Driver) -> (&'static str, &[u32]) {
    match driver {
        Driver::Gate(op, arguments) => (name_of(*op), arguments.as_slice()),
        Driver::Input(_) | Driver::Constant(_) => ("no gate", &[]),
    }
}

fn name_of(op: Op) -> &'static str {
    match op {
        Op::Buf => "buf",
        Op::Not => "not",
        Op::And => "and",
        Op::Or => "or",
        Op::Nand => "nand",
        Op::Nor => "nor",
        Op::Xor => "xor",
        Op::Xnor => "xnor",
    }
}
