//! One network, whose lengths and edges are plain: an input handed on both to a `not` and to an `and` that
//! reads the `not` too. What a clause says is not tested again.

use crate::asserts::{is_bool, is_bool_in_row, is_number, is_number_in_row};
use bx_forms::Kind;
use bx_network::{MappedNet, is_unused};
use bx_samples::branching;
use std::process::Abort;
use std::test::Fail;

// ---- Nodes

// The kind of each node, and the lengths of the longest paths to it and from it.
const NODES: &[(Kind, u32, u32)] = &[
    (Kind::Input, 0, 4),
    (Kind::Fan, 1, 3),
    (Kind::Not, 2, 2),
    (Kind::And, 3, 1),
    (Kind::Output, 4, 0),
];

#[test]
fn nodes_have_their_kinds(rt: HostRuntime) -> Result<(), Fail> {
    let net = branching(rt.alloc())?;
    is_number(&rt, net.node_count().into(), 5);
    for (v, &(kind, _, _)) in NODES.iter().enumerate() {
        is_bool_in_row(&rt, v, is_of_kind(&net, v as u32, kind), true);
    }
    Ok(())
}

fn is_of_kind(net: &MappedNet, v: u32, kind: Kind) -> bool {
    v < net.node_count() && net.node(v).kind == kind
}

#[test]
fn longest_paths_are_measured(rt: HostRuntime) -> Result<(), Fail> {
    let net = branching(rt.alloc())?;
    for (v, &(_, down, up)) in NODES.iter().enumerate() {
        let found = lengths(&net, v as u32);
        is_number_in_row(&rt, v, found.0.into(), down.into());
        is_number_in_row(&rt, v, found.1.into(), up.into());
    }
    Ok(())
}

// Of the longest path to a node, and from it; 99 and 99 where there is no such node.
fn lengths(net: &MappedNet, v: u32) -> (u32, u32) {
    if v < net.node_count() {
        (net.down(v), net.up(v))
    } else {
        (99, 99)
    }
}

// Nodes, rows and heights, and whether the node may stand there.
const WINDOWS: &[((u32, u32, u32), bool)] = &[
    ((0, 0, 1), true),
    ((0, 1, 5), false),
    ((4, 4, 5), true),
    ((4, 3, 5), false),
    ((3, 3, 5), true),
    ((3, 2, 5), false),
    ((3, 3, 4), false),
    ((3, 4, 6), true),
    ((3, 4294967295, 4294967295), false),
];

#[test]
fn a_node_may_stand_in_its_window(rt: HostRuntime) -> Result<(), Fail> {
    let net = branching(rt.alloc())?;
    for (row, &((v, y, height), wanted)) in WINDOWS.iter().enumerate() {
        is_bool_in_row(&rt, row, may_stand(&net, v, y, height)?, wanted);
    }
    Ok(())
}

fn may_stand(net: &MappedNet, v: u32, row: u32, height: u32) -> Result<bool, Fail> {
    if v < net.node_count() {
        Ok(net.in_window(v, row, height))
    } else {
        Err("there is no such node".into())
    }
}

// ---- Edges

#[test]
fn edges_are_found_by_both_ends(rt: HostRuntime) -> Result<(), Fail> {
    let net = branching(rt.alloc())?;
    is_number(&rt, net.edge_count().into(), 5);
    for e in 0..net.edge_count() {
        is_found(&rt, &net, e);
    }
    Ok(())
}

// The edge is the one that leaves its source by its slot, and the one that enters its target by its operand.
fn is_found(rt: &impl Abort, net: &MappedNet, e: u32) {
    if e < net.edge_count() {
        let edge = net.edge(e);
        is_number(rt, net.edge_out(edge.source, edge.slot).into(), e.into());
        is_number(rt, net.edge_in(edge.target, edge.operand).into(), e.into());
    }
}

#[test]
fn an_input_that_no_node_has_is_unused(rt: HostRuntime) -> Result<(), Fail> {
    let net = branching(rt.alloc())?;
    is_bool(&rt, is_unused(&net, 0), false);
    is_bool(&rt, is_unused(&net, 1), true);
    Ok(())
}
