//! The first count proofs of small networks, as they were worked out by hand, and proofs with a number
//! changed. What a clause says is not tested again.

use crate::asserts::{are_numbers_in_row, is_bool_in_row};
use bx_bounds::{MOST_COUNTED, check_count, refute};
use bx_grid::{CountProof, Ratio};
use bx_network::MappedNet;
use bx_samples::{conjunction, half_adder, inversion, twice, unused};
use std::process::Abort;
use std::test::Fail;

// ---- First count proofs

// A ratio, and the first count proof that refutes it.
type Row = ((u32, u32), Option<CountProof>);

const LATE: Option<CountProof> = Some(CountProof::Late { node: 0 });

const FIRST_ROW: Option<CountProof> = Some(CountProof::Crowd { first: 0, last: 0 });

// Each ratio up to the first on which there is a layout.
const OF_INVERSION: &[Row] = &[
    ((1, 1), LATE),
    ((1, 2), LATE),
    ((2, 1), LATE),
    ((1, 3), None),
];

#[test]
fn an_inversion_wants_three_rows(rt: HostRuntime) -> Result<(), Fail> {
    are_first(&rt, &inversion(rt.alloc())?, OF_INVERSION)
}

// Two inputs don't fit into a row of one tile.
const OF_CONJUNCTION: &[Row] = &[
    ((1, 1), LATE),
    ((1, 2), LATE),
    ((2, 1), LATE),
    ((1, 3), FIRST_ROW),
    ((3, 1), LATE),
    ((1, 4), FIRST_ROW),
    ((2, 2), LATE),
    ((4, 1), LATE),
    ((1, 5), FIRST_ROW),
    ((5, 1), LATE),
    ((1, 6), FIRST_ROW),
    ((2, 3), None),
];

#[test]
fn a_conjunction_wants_two_columns(rt: HostRuntime) -> Result<(), Fail> {
    are_first(&rt, &conjunction(rt.alloc())?, OF_CONJUNCTION)
}

// Four edges cross from the fans to the gates. On three columns and four rows no count tells that there is
// no layout.
const OF_HALF_ADDER: &[Row] = &[
    ((2, 3), LATE),
    ((2, 4), Some(CountProof::Cut { row: 1 })),
    ((2, 5), Some(CountProof::Pair { one: 1, two: 3 })),
    ((2, 6), Some(CountProof::Pair { one: 1, two: 3 })),
    ((2, 7), Some(CountProof::Pair { one: 1, two: 3 })),
    ((1, 15), FIRST_ROW),
    ((3, 4), None),
    ((3, 5), None),
];

#[test]
fn a_half_adder_wants_three_columns(rt: HostRuntime) -> Result<(), Fail> {
    are_first(&rt, &half_adder(rt.alloc())?, OF_HALF_ADDER)
}

// The longest path begins at the second input.
const OF_UNUSED: &[Row] = &[
    ((3, 3), LATE),
    ((1, 4), Some(CountProof::Late { node: 1 })),
    ((2, 4), Some(CountProof::Late { node: 1 })),
    ((1, 5), FIRST_ROW),
    ((5, 2), LATE),
    ((1, 10), FIRST_ROW),
    ((2, 5), None),
];

#[test]
fn the_longest_path_may_begin_at_any_input(rt: HostRuntime) -> Result<(), Fail> {
    are_first(&rt, &unused(rt.alloc())?, OF_UNUSED)
}

// Two edges lead from the fan to the gate.
const OF_TWICE: &[Row] = &[
    ((1, 3), LATE),
    ((1, 4), Some(CountProof::Cut { row: 1 })),
    ((1, 5), Some(CountProof::Pair { one: 0, two: 1 })),
    ((2, 4), None),
];

#[test]
fn two_edges_between_two_nodes_are_two(rt: HostRuntime) -> Result<(), Fail> {
    are_first(&rt, &twice(rt.alloc())?, OF_TWICE)
}

// Each of these is the network's first count proof, and holds.
fn are_first(rt: &impl Abort, net: &MappedNet, rows: &[Row]) -> Result<(), Fail> {
    for (row, &((w, h), wanted)) in rows.iter().enumerate() {
        let found = first_proof(net, Ratio { w, h })?;
        are_numbers_in_row(rt, row, &numbers_of(found), &numbers_of(wanted));
        is_bool_in_row(rt, row, holds(net, Ratio { w, h }, wanted)?, true);
    }
    Ok(())
}

fn first_proof(net: &MappedNet, ratio: Ratio) -> Result<Option<CountProof>, Fail> {
    if net.node_count() as usize <= MOST_COUNTED {
        Ok(refute(net, ratio))
    } else {
        Err("too many nodes".into())
    }
}

// Which inequality it is, from 1, and the numbers that it says; all 0 where there is none.
fn numbers_of(proof: Option<CountProof>) -> [u32; 3] {
    match proof {
        None => [0, 0, 0],
        Some(CountProof::Late { node }) => [1, node, 0],
        Some(CountProof::Crowd { first, last }) => [2, first, last],
        Some(CountProof::Cut { row }) => [3, row, 0],
        Some(CountProof::Pair { one, two }) => [4, one, two],
    }
}

// Whether the proof refutes the ratio, where there is one.
fn holds(net: &MappedNet, ratio: Ratio, proof: Option<CountProof>) -> Result<bool, Fail> {
    match proof {
        Some(proof) => refutes(net, ratio, proof),
        None => Ok(true),
    }
}

fn refutes(net: &MappedNet, ratio: Ratio, proof: CountProof) -> Result<bool, Fail> {
    if net.node_count() as usize <= MOST_COUNTED {
        Ok(check_count(net, ratio, proof))
    } else {
        Err("too many nodes".into())
    }
}

// ---- Proofs with a number changed

// A ratio, a proof, and whether it refutes the ratio.
type Check = ((u32, u32), CountProof, bool);

// Proofs for the half adder: some that hold, each with one number changed, and some out of range.
const OF_ADDING: &[Check] = &[
    ((2, 3), CountProof::Late { node: 7 }, true),
    ((2, 3), CountProof::Late { node: 8 }, false),
    ((2, 4), CountProof::Late { node: 7 }, false),
    ((1, 4), CountProof::Crowd { first: 1, last: 1 }, true),
    ((1, 4), CountProof::Crowd { first: 2, last: 1 }, false),
    ((1, 4), CountProof::Crowd { first: 1, last: 4 }, false),
    ((1, 5), CountProof::Crowd { first: 1, last: 1 }, false),
    ((2, 4), CountProof::Cut { row: 1 }, true),
    ((2, 4), CountProof::Cut { row: 2 }, false),
    ((2, 4), CountProof::Cut { row: 3 }, false),
    ((2, 5), CountProof::Pair { one: 1, two: 3 }, true),
    ((2, 5), CountProof::Pair { one: 1, two: 2 }, false),
    ((2, 5), CountProof::Pair { one: 3, two: 1 }, false),
    ((2, 5), CountProof::Pair { one: 1, two: 8 }, false),
];

#[test]
fn a_changed_number_refutes_nothing(rt: HostRuntime) -> Result<(), Fail> {
    are_checked(&rt, &half_adder(rt.alloc())?, OF_ADDING)
}

// Both edges from the fan count.
const OF_EQUAL_OPERANDS: &[Check] = &[
    ((1, 5), CountProof::Pair { one: 1, two: 1 }, true),
    ((2, 5), CountProof::Pair { one: 1, two: 1 }, false),
];

#[test]
fn each_edge_is_counted_by_its_operand(rt: HostRuntime) -> Result<(), Fail> {
    are_checked(&rt, &twice(rt.alloc())?, OF_EQUAL_OPERANDS)
}

fn are_checked(rt: &impl Abort, net: &MappedNet, rows: &[Check]) -> Result<(), Fail> {
    for (row, &((w, h), proof, wanted)) in rows.iter().enumerate() {
        is_bool_in_row(rt, row, refutes(net, Ratio { w, h }, proof)?, wanted);
    }
    Ok(())
}
