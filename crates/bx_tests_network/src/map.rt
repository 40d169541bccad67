//! What no clause of the mapping says: that nets are mapped where there is memory, and what some networks are,
//! as they come of the rules by hand.

use crate::asserts::{is_bool_in_row, is_text};
use crate::nets::{Item, drivers_of, gate, net_of};
use Item::{Bit, Gate};
use bx_forms::Kind;
use bx_logic::{Driver, Op};
use bx_map::{Edge, MapFault, MappedNet, Node, is_unused, map_net};
use std::alloc::Global;
use std::process::Abort;
use std::test::Fail;

// ---- Networks

// How many inputs there are, the nets behind them, and the nets of the outputs.
type Parts = (u32, &'static [Item], &'static [u32]);

// Nets, and the nodes and edges of their networks: a node by its kind, with its port where it has one, and
// an edge as SOURCE.SLOT-TARGET.OPERAND.
const NETWORKS: &[(Parts, &str)] = &[
    ((1, &[], &[0]), "Input0 Output0 0.0-1.0"),
    (
        (1, &[], &[0, 0]),
        "Input0 Fan Output0 Output1 0.0-1.0 1.0-2.0 1.1-3.0",
    ),
    (
        (1, &[], &[0, 0, 0]),
        "Input0 Fan Fan Output0 Output1 Output2 0.0-1.0 1.0-2.0 1.1-5.0 2.0-3.0 2.1-4.0",
    ),
    (
        (1, &[], &[0, 0, 0, 0, 0]),
        "Input0 Fan Fan Fan Fan Output0 Output1 Output2 Output3 Output4 0.0-1.0 1.0-2.0 1.1-4.0 2.0-3.0 2.1-7.0 3.0-5.0 3.1-6.0 4.0-8.0 4.1-9.0",
    ),
    (
        (1, &[], &[0, 0, 0, 0, 0, 0, 0, 0]),
        "Input0 Fan Fan Fan Fan Fan Fan Fan Output0 Output1 Output2 Output3 Output4 Output5 Output6 Output7 0.0-1.0 1.0-2.0 1.1-5.0 2.0-3.0 2.1-4.0 3.0-8.0 3.1-9.0 4.0-10.0 4.1-11.0 5.0-6.0 5.1-7.0 6.0-12.0 6.1-13.0 7.0-14.0 7.1-15.0",
    ),
    // gates of three arguments and of one
    (
        (3, &[Gate(Op::Nand, &[0, 1, 2])], &[3]),
        "Input0 Input1 Input2 And Nand Output0 0.0-3.0 1.0-3.1 2.0-4.1 3.0-4.0 4.0-5.0",
    ),
    (
        (3, &[Gate(Op::Xnor, &[0, 1, 2])], &[3]),
        "Input0 Input1 Input2 Xor Xnor Output0 0.0-3.0 1.0-3.1 2.0-4.1 3.0-4.0 4.0-5.0",
    ),
    (
        (1, &[Gate(Op::Nor, &[0])], &[1]),
        "Input0 Not Output0 0.0-1.0 1.0-2.0",
    ),
    // the last argument is a constant
    (
        (2, &[Bit(true), Gate(Op::Nand, &[0, 1, 2])], &[3]),
        "Input0 Input1 And Not Output0 0.0-2.0 1.0-2.1 2.0-3.0 3.0-4.0",
    ),
    // equal operands
    (
        (1, &[Gate(Op::And, &[0, 0])], &[1]),
        "Input0 Fan And Output0 0.0-1.0 1.0-2.0 1.1-2.1 2.0-3.0",
    ),
    // a gate with three consumers, of which two are outputs
    (
        (
            2,
            &[Gate(Op::And, &[0, 1]), Gate(Op::Not, &[2])],
            &[2, 2, 3],
        ),
        "Input0 Input1 And Fan Fan Not Output0 Output1 Output2 0.0-2.0 1.0-2.1 2.0-3.0 3.0-4.0 3.1-7.0 4.0-5.0 4.1-6.0 5.0-8.0",
    ),
    // an input that nothing reads
    (
        (
            3,
            &[
                Gate(Op::Not, &[1]),
                Gate(Op::And, &[0, 3]),
                Gate(Op::Not, &[4]),
            ],
            &[5],
        ),
        "Input0 Input1 Not And Not Output0 0.0-3.0 1.0-2.0 2.0-3.1 3.0-4.0 4.0-5.0",
    ),
    // a gate that only one reads that is dropped
    (
        (
            2,
            &[
                Gate(Op::Or, &[0, 1]),
                Gate(Op::Not, &[2]),
                Gate(Op::Xor, &[1, 0]),
            ],
            &[4],
        ),
        "Input0 Input1 Xor Output0 0.0-2.1 1.0-2.0 2.0-3.0",
    ),
    // the walk comes to the Xor by an argument that folds away, and so before the Or
    (
        (
            2,
            &[
                Gate(Op::Xor, &[0, 1]),
                Gate(Op::Or, &[0, 1]),
                Bit(false),
                Gate(Op::And, &[2, 4]),
                Gate(Op::And, &[3, 2]),
                Gate(Op::Or, &[5, 6]),
            ],
            &[7],
        ),
        "Input0 Fan Input1 Fan Xor Or And Output0 0.0-1.0 1.0-4.0 1.1-5.0 2.0-3.0 3.0-4.1 3.1-5.1 4.0-6.1 5.0-6.0 6.0-7.0",
    ),
    // outputs that fold to constants, of which the first counts
    (
        (1, &[Bit(true), Bit(false)], &[0, 2, 1]),
        "ConstantOutput(1)",
    ),
    (
        (1, &[Bit(true), Gate(Op::Xor, &[1, 1])], &[2]),
        "ConstantOutput(0)",
    ),
];

#[test]
fn networks_come_of_the_rules(rt: HostRuntime) -> Result<(), Fail> {
    for &((inputs, items, outputs), wanted) in NETWORKS {
        let text = mapped_text(&rt, rt.alloc(), inputs, items, outputs)?;
        is_text(&rt, text.as_str(), wanted);
    }
    Ok(())
}

// ---- Constants

// Each operation with what it gives of an input `a` and a constant, for the arguments a 0, a 1, 0 a and
// 1 a, where `n` is Not of the input; and of two constants, for 0 0, 0 1, 1 0 and 1 1.
const CONSTANTS: &[(Op, &str)] = &[
    (Op::And, "0a0a 0001"),
    (Op::Or, "a1a1 0111"),
    (Op::Nand, "1n1n 1110"),
    (Op::Nor, "n0n0 1000"),
    (Op::Xor, "anan 0110"),
    (Op::Xnor, "nana 1001"),
];

// The arguments in their order: net 0 is the input, net 1 the constant 0 and net 2 the constant 1.
const ARGUMENTS: &[&[u32]] = &[
    &[0, 1],
    &[0, 2],
    &[1, 0],
    &[2, 0],
    &[1, 1],
    &[1, 2],
    &[2, 1],
    &[2, 2],
];

#[test]
fn constants_are_folded_away(rt: HostRuntime) -> Result<(), Fail> {
    for &(op, wanted) in CONSTANTS {
        let found = all_given(&rt, rt.alloc(), op)?;
        is_text(&rt, found.as_str(), wanted);
    }
    Ok(())
}

// What an operation gives of all these arguments.
fn all_given(rt: &impl Abort, alloc: Global, op: Op) -> Result<String, Fail> {
    let mut found = String::new(alloc);
    for (place, &arguments) in ARGUMENTS.iter().enumerate() {
        if place == 4 {
            found.push(' ')?;
        }
        found.push(given(rt, alloc, op, arguments)?)?;
    }
    Ok(found)
}

// Operations of one argument, and whether they invert it.
const SINGLES: &[(Op, bool)] = &[
    (Op::Buf, false),
    (Op::Not, true),
    (Op::And, false),
    (Op::Or, false),
    (Op::Nand, true),
    (Op::Nor, true),
    (Op::Xor, false),
    (Op::Xnor, true),
];

#[test]
fn gates_of_one_argument_are_wires_or_inversions(rt: HostRuntime) -> Result<(), Fail> {
    for (row, &(op, inverts)) in SINGLES.iter().enumerate() {
        let of_input = given(&rt, rt.alloc(), op, &[0])?;
        is_bool_in_row(&rt, row, of_input == if inverts { 'n' } else { 'a' }, true);
        let of_zero = given(&rt, rt.alloc(), op, &[1])?;
        is_bool_in_row(&rt, row, of_zero == if inverts { '1' } else { '0' }, true);
    }
    Ok(())
}

// What an operation gives of two of these nets: `a` for the input, `n` for Not of it, or a constant.
fn given(rt: &impl Abort, alloc: Global, op: Op, arguments: &'static [u32]) -> Result<char, Fail> {
    let gate = Gate(op, arguments);
    let alone = outcome(rt, alloc, &[Bit(false), Bit(true), gate], 3)?;
    if alone != 'c' {
        return Ok(alone);
    }
    // The input or its Not, by which of the constants the gate gives.
    let beside = Gate(Op::Xor, &[0, 3]);
    Ok(
        match outcome(rt, alloc, &[Bit(false), Bit(true), gate, beside], 4)? {
            'a' => '0',
            'n' => '1',
            _ => '?',
        },
    )
}

// What a net is behind one input: `a` for the input, `n` for Not of it, or `c` for a constant.
fn outcome(rt: &impl Abort, alloc: Global, items: &[Item], output: u32) -> Result<char, Fail> {
    let text = mapped_text(rt, alloc, 1, items, &[output])?;
    Ok(letter_of(text.as_str()))
}

fn letter_of(text: &str) -> char {
    if text == "Input0 Output0 0.0-1.0" {
        'a'
    } else if text == "Input0 Not Output0 0.0-1.0 1.0-2.0" {
        'n'
    } else if text == "ConstantOutput(0)" {
        'c'
    } else {
        '?'
    }
}

// ---- Gates

// Operations of two inputs, and the kind of the node.
const KINDS: &[(Op, Kind)] = &[
    (Op::And, Kind::And),
    (Op::Or, Kind::Or),
    (Op::Nand, Kind::Nand),
    (Op::Nor, Kind::Nor),
    (Op::Xor, Kind::Xor),
    (Op::Xnor, Kind::Xnor),
];

#[test]
fn gates_of_two_inputs_are_nodes(rt: HostRuntime) -> Result<(), Fail> {
    for &(op, kind) in KINDS {
        let text = mapped_text(&rt, rt.alloc(), 2, &[Gate(op, &[1, 0])], &[2])?;
        let wanted = gate_text(rt.alloc(), kind)?;
        is_text(&rt, text.as_str(), wanted.as_str());
    }
    Ok(())
}

fn gate_text(alloc: Global, kind: Kind) -> Result<String, Fail> {
    Ok(format!(in alloc; "Input0 Input1 {kind:?} Output0 0.0-2.1 1.0-2.0 2.0-3.0")?)
}

// ---- How many nodes there are

// A chain of so many inversions, how many nodes may be, and what comes of it: how many nodes, or a fault.
const CHAINS: &[(u32, u32, &str)] = &[
    (0, 2, "2"),
    (0, 1, "TooManyNodes(2)"),
    (94, 96, "96"),
    (95, 96, "TooManyNodes(97)"),
    (250_000, 65_536, "TooManyNodes(250002)"),
];

#[test]
fn nodes_are_counted(rt: HostRuntime) -> Result<(), Fail> {
    for &(length, most, wanted) in CHAINS {
        let found = count_text(&rt, rt.alloc(), length, most)?;
        is_text(&rt, found.as_str(), wanted);
    }
    Ok(())
}

// How many nodes the network of a chain has, or why there is none.
fn count_text(rt: &impl Abort, alloc: Global, length: u32, most: u32) -> Result<String, Fail> {
    let net = net_of(rt, alloc, 1, chain(rt, alloc, length)?, &[length])?;
    if most > 65_536 {
        return Err("no mapping may have as many".into());
    }
    match map_net(alloc, &net, most) {
        Ok(network) => Ok(format!(in alloc; "{}", network.node_count())?),
        Err(fault) => fault_text(alloc, fault),
    }
}

// An input, and so many inversions, each of the net before it.
fn chain(rt: &impl Abort, alloc: Global, length: u32) -> Result<Vec<Driver>, Fail> {
    let mut drivers = drivers_of(rt, alloc, 1, &[])?;
    for net in 0..length {
        drivers.push(gate(rt, Op::Not, [net].to_vec(alloc)?)?)?;
    }
    Ok(drivers)
}

// ---- Inputs that nothing reads

// Of three inputs the first and the last are read: whether each is unused, and one that isn't there.
const UNUSED: &[bool] = &[false, true, false, true];

#[test]
fn an_input_that_nothing_reads_is_unused(rt: HostRuntime) -> Result<(), Fail> {
    let network = two_of_three(&rt, rt.alloc())?;
    for (input, &unused) in UNUSED.iter().enumerate() {
        is_bool_in_row(&rt, input, is_unused(&network, input as u32), unused);
    }
    Ok(())
}

fn two_of_three(rt: &impl Abort, alloc: Global) -> Result<MappedNet, Fail> {
    let drivers = drivers_of(rt, alloc, 3, &[])?;
    let net = net_of(rt, alloc, 3, drivers, &[2, 0])?;
    Ok(map_net(alloc, &net, 96)?)
}

// ---- Networks as text

// The network of a net, or why there is none.
fn mapped_text(
    rt: &impl Abort,
    alloc: Global,
    inputs: u32,
    items: &[Item],
    outputs: &[u32],
) -> Result<String, Fail> {
    let drivers = drivers_of(rt, alloc, inputs, items)?;
    let net = net_of(rt, alloc, inputs, drivers, outputs)?;
    match map_net(alloc, &net, 96) {
        Ok(network) => text_of(alloc, &network),
        Err(fault) => fault_text(alloc, fault),
    }
}

fn fault_text(alloc: Global, fault: MapFault) -> Result<String, Fail> {
    Ok(format!(in alloc; "{fault:?}")?)
}

// The nodes and edges of a network.
fn text_of(alloc: Global, network: &MappedNet) -> Result<String, Fail> {
    let mut text = String::new(alloc);
    for v in 0..network.node_count() {
        push_word(&mut text, node_text(alloc, network.node(v))?.as_str())?;
    }
    for e in 0..network.edge_count() {
        push_word(&mut text, edge_text(alloc, network.edge(e))?.as_str())?;
    }
    Ok(text)
}

// Puts a word behind the others.
fn push_word(text: &mut String, word: &str) -> Result<(), Fail> {
    if !text.is_empty() {
        text.push(' ')?;
    }
    text.push_str(word)?;
    Ok(())
}

fn node_text(alloc: Global, node: Node) -> Result<String, Fail> {
    let Node { kind, port } = node;
    Ok(match kind {
        Kind::Input | Kind::Output => format!(in alloc; "{kind:?}{port}")?,
        _ => format!(in alloc; "{kind:?}")?,
    })
}

fn edge_text(alloc: Global, edge: Edge) -> Result<String, Fail> {
    let Edge {
        source,
        slot,
        target,
        operand,
    } = edge;
    Ok(format!(in alloc; "{source}.{slot}-{target}.{operand}")?)
}
