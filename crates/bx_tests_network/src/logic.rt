//! Tests of nets and their values: what some nets give, and what a net says of itself. Which nets depend on
//! themselves is tested with the text formats.

use crate::asserts::{are_bools_in_row, are_bytes, are_numbers_in_row, is_bool, is_number};
use crate::nets::{Item, drivers_of, gate, net_of};
use bx_logic::{Args, Driver, Name, Net, Op};
use std::alloc::Global;
use std::process::Abort;
use std::test::Fail;

// What an operation gives of values.
const GATES: &[(Op, &[bool], bool)] = &[
    (Op::Buf, &[false], false),
    (Op::Buf, &[true], true),
    (Op::Not, &[false], true),
    (Op::Not, &[true], false),
    (Op::And, &[true], true),
    (Op::Or, &[false], false),
    (Op::Nand, &[true], false),
    (Op::Nor, &[false], true),
    (Op::Xor, &[true], true),
    (Op::Xnor, &[true], false),
    (Op::And, &[true, false], false),
    (Op::And, &[true, true], true),
    (Op::Or, &[false, false], false),
    (Op::Or, &[true, false], true),
    (Op::Nand, &[true, true], false),
    (Op::Nand, &[false, true], true),
    (Op::Nor, &[false, false], true),
    (Op::Nor, &[false, true], false),
    (Op::Xor, &[true, true], false),
    (Op::Xor, &[true, false], true),
    (Op::Xnor, &[true, true], true),
    (Op::Xnor, &[false, true], false),
    (Op::And, &[true, true, false], false),
    (Op::And, &[true, true, true], true),
    (Op::Or, &[false, false, true], true),
    (Op::Nand, &[true, true, false], true),
    (Op::Nand, &[false, true, true], true),
    (Op::Nor, &[false, false, false], true),
    (Op::Nor, &[true, false, false], false),
    (Op::Xor, &[true, true, true], true),
    (Op::Xor, &[true, true, false], false),
    (Op::Xnor, &[true, true, false], true),
    (Op::Xnor, &[true, true, true], false),
];

#[test]
fn gates_give_what_their_operations_say(rt: HostRuntime) -> Result<(), Fail> {
    for (row, &(op, bits, wanted)) in GATES.iter().enumerate() {
        let net = gate_of_inputs(&rt, rt.alloc(), op, bits.len())?;
        gives(&rt, rt.alloc(), row, &net, bits, &[wanted])?;
    }
    Ok(())
}

#[test]
fn a_deep_net_has_values(rt: HostRuntime) -> Result<(), Fail> {
    let net = deep(&rt, rt.alloc())?;
    gives(&rt, rt.alloc(), 0, &net, &[false], &[true, false])?;
    gives(&rt, rt.alloc(), 1, &net, &[true], &[false, true])?;
    Ok(())
}

#[test]
fn a_wide_net_has_values(rt: HostRuntime) -> Result<(), Fail> {
    let net = wide(&rt, rt.alloc())?;
    gives(&rt, rt.alloc(), 0, &net, &[false], &[false])?;
    gives(&rt, rt.alloc(), 1, &net, &[true], &[true])?;
    Ok(())
}

#[test]
fn outputs_may_be_inputs_and_constants(rt: HostRuntime) -> Result<(), Fail> {
    let net = two_inputs_and_two_constants(&rt, rt.alloc())?;
    let wanted = &[false, true, false, true, false];
    gives(&rt, rt.alloc(), 0, &net, &[true, false], wanted)
}

#[test]
fn a_net_says_its_name(rt: HostRuntime) -> Result<(), Fail> {
    let net = two_inputs_and_two_constants(&rt, rt.alloc())?;
    are_bytes(&rt, net.name().as_slice(), b"m");
    Ok(())
}

#[test]
fn a_net_says_its_inputs(rt: HostRuntime) -> Result<(), Fail> {
    let net = two_inputs_and_two_constants(&rt, rt.alloc())?;
    is_number(&rt, u64::from(net.input_count()), 2);
    are_bytes(&rt, net.input_name(1).as_slice(), b"i1");
    Ok(())
}

#[test]
fn a_net_says_the_names_of_its_outputs(rt: HostRuntime) -> Result<(), Fail> {
    let net = two_inputs_and_two_constants(&rt, rt.alloc())?;
    is_number(&rt, u64::from(net.output_count()), 5);
    are_bytes(&rt, net.output_name(4).as_slice(), b"y");
    Ok(())
}

#[test]
fn a_net_says_the_nets_of_its_outputs(rt: HostRuntime) -> Result<(), Fail> {
    let net = two_inputs_and_two_constants(&rt, rt.alloc())?;
    is_number(&rt, u64::from(net.output_count()), 5);
    is_number(&rt, u64::from(net.output_net(3)), 0);
    Ok(())
}

#[test]
fn a_net_says_its_drivers(rt: HostRuntime) -> Result<(), Fail> {
    let net = two_inputs_and_two_constants(&rt, rt.alloc())?;
    is_number(&rt, u64::from(net.len()), 4);
    is_bool(&rt, matches!(net.driver(2), Driver::Constant(true)), true);
    Ok(())
}

#[test]
fn a_name_keeps_its_bytes(rt: HostRuntime) -> Result<(), Fail> {
    let name = Name::new(b"clk_2\0\xff".to_vec(rt.alloc())?);
    are_bytes(&rt, name.as_slice(), b"clk_2\0\xff");
    are_bytes(&rt, &name.into_vec(), b"clk_2\0\xff");
    Ok(())
}

#[test]
fn arguments_keep_their_numbers(rt: HostRuntime) -> Result<(), Fail> {
    let args = Args::new([3, 3, 1].to_vec(rt.alloc())?);
    are_numbers_in_row(&rt, 0, args.as_slice(), &[3, 3, 1]);
    are_numbers_in_row(&rt, 1, &args.into_vec(), &[3, 3, 1]);
    Ok(())
}

// The output values of a net for these values of its inputs, put over an old value, are those that are
// wanted in this row.
fn gives(
    rt: &impl Abort,
    alloc: Global,
    row: usize,
    net: &Net,
    bits: &[bool],
    wanted: &[bool],
) -> Result<(), Fail> {
    assert!(rt; bits.len() == net.input_count() as usize);
    let mut out = [true].to_vec(alloc)?;
    net.eval(alloc, bits, &mut out)?;
    are_bools_in_row(rt, row, &out, wanted);
    Ok(())
}

// A net of so many inputs, all of which one gate reads.
fn gate_of_inputs(rt: &impl Abort, alloc: Global, op: Op, count: usize) -> Result<Net, Fail> {
    let count = u32::try_from(count)?;
    let mut drivers = drivers_of(rt, alloc, count, &[])?;
    drivers.push(gate(rt, op, (0..count).collect::<Vec<u32>>(alloc)?)?)?;
    net_of(rt, alloc, count, drivers, &[count])
}

// A chain of inverters, with an output at its end and one just before.
fn deep(rt: &impl Abort, alloc: Global) -> Result<Net, Fail> {
    let mut drivers = drivers_of(rt, alloc, 1, &[])?;
    for net in 0..250_001 {
        drivers.push(gate(rt, Op::Not, [net].to_vec(alloc)?)?)?;
    }
    net_of(rt, alloc, 1, drivers, &[250_001, 250_000])
}

// A gate that reads one input often.
fn wide(rt: &impl Abort, alloc: Global) -> Result<Net, Fail> {
    let mut drivers = drivers_of(rt, alloc, 1, &[])?;
    drivers.push(gate(rt, Op::Xor, vec![in alloc; 0; 520_001]?)?)?;
    net_of(rt, alloc, 1, drivers, &[1])
}

// Nets that read none, with more outputs than nets.
fn two_inputs_and_two_constants(rt: &impl Abort, alloc: Global) -> Result<Net, Fail> {
    let drivers = drivers_of(rt, alloc, 2, &[Item::Bit(true), Item::Bit(false)])?;
    net_of(rt, alloc, 2, drivers, &[1, 2, 3, 0, 1])
}
