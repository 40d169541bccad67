//! The walk over the nodes of a network: from the edges of the inputs each node in turn takes its edges from
//! the lanes and gives those that leave it.
ghost use Rattle.std.specs.Prelude.{◌≡◌, ◌<◌, ◌≤◌, ◌+◌, IfOk, OnOk, length};
ghost use Rattle.bx_forms.specs.Kinds.{operands, slots};
ghost use Rattle.bx_forms.specs.declared.kind.Kind.TheVariants.{Not, Fan};
ghost use Rattle.bx_layout.specs.Valuations.{is_input as is_input_kind};
ghost use Rattle.bx_network.specs.Networks.{HasKind};
ghost use Rattle.bx_quick.specs.LaneStates.{after_not as not_done, after_fan as fan_done, after_gate as gate_done, after_node as node_done, start_of, end_of as last_state};

use crate::operation::node_form;
use crate::state::State;
use bx_forms::Kind;
use bx_logic::NoMemory;
use bx_network::MappedNet;
use std::alloc::Global;

// The last state: the lanes that lead to the outputs, and all operations.
pub fn end_of(alloc: Global, net: &MappedNet) -> Result<State, NoMemory>
    requires { length net.now.nodes ≤ 4096 }
    ensures is { IfOk result (λ state. state ≡ last_state net.now) }
    ensures few { IfOk result (λ state. length state.lanes ≤ 12288) }
{
    let mut state = start(alloc, net)?;
    for v in 0..net.node_count() {
        let kind = net.node(v).kind;
        after_node(&mut state, net, v, kind)?;
    }
    Ok(state)
}

// The first state: the edges of the inputs, in node order.
fn start(alloc: Global, net: &MappedNet) -> Result<State, NoMemory>
    requires { length net.now.nodes ≤ 4096 }
    ensures is { IfOk result (λ state. state ≡ start_of net.now) }
    ensures few { IfOk result (λ state. length state.lanes ≤ 4096) }
{
    let mut lanes = Vec::new(alloc);
    for v in 0..net.node_count() {
        if is_input(net.node(v).kind) {
            lanes.push(net.edge_out(v, 0))?;
        }
    }
    Ok(State::new(alloc, lanes))
}

// Whether a node of this kind is an input.
pub fn is_input(kind: Kind) -> bool
    ensures { result ≡ is_input_kind kind }
{
    match kind {
        Kind::Input => true,
        _ => false,
    }
}

// What a node does to the lanes.
fn after_node(state: &mut State, net: &MappedNet, v: u32, kind: Kind) -> Result<(), NoMemory>
    requires kind { HasKind net.now v kind }
    requires few { length state.old.lanes < 16384 }
    ensures done { OnOk result (state.new ≡ node_done net.now.edges v kind state.old) }
    ensures few { OnOk result (length state.new.lanes ≤ length state.old.lanes + 2) }
{
    match kind {
        Kind::Input | Kind::Output => Ok(()),
        Kind::Not => after_not(state, net, v),
        Kind::Fan => after_fan(state, net, v),
        _ => after_gate(state, net, v, kind),
    }
}

// A `not` stands in the lane of its edge.
fn after_not(state: &mut State, net: &MappedNet, v: u32) -> Result<(), NoMemory>
    requires kind { HasKind net.now v Not }
    requires few { length state.old.lanes < 16384 }
    ensures done { OnOk result (state.new ≡ not_done net.now.edges v state.old) }
    ensures few { OnOk result (length state.new.lanes ≤ length state.old.lanes + 2) }
{
    let lane = state.lane_of(net.edge_in(v, 0));
    state.note(lane, node_form(Kind::Not))?;
    if lane < state.lanes.len() {
        state.lanes[lane] = net.edge_out(v, 0);
    }
    Ok(())
}

// A fan takes the last lane, and gives the last two.
fn after_fan(state: &mut State, net: &MappedNet, v: u32) -> Result<(), NoMemory>
    requires kind { HasKind net.now v Fan }
    requires few { length state.old.lanes < 16384 }
    ensures done { OnOk result (state.new ≡ fan_done net.now.edges v state.old) }
    ensures few { OnOk result (length state.new.lanes ≤ length state.old.lanes + 2) }
{
    let last = state.lanes.len().saturating_sub(1);
    state.move_to(net.edge_in(v, 0), last)?;
    state.take_from(last, node_form(Kind::Fan))?;
    state.lanes.push(net.edge_out(v, 0))?;
    state.lanes.push(net.edge_out(v, 1))?;
    Ok(())
}

// A gate takes the last two lanes, and gives the last one.
fn after_gate(state: &mut State, net: &MappedNet, v: u32, kind: Kind) -> Result<(), NoMemory>
    requires kind { HasKind net.now v kind }
    requires two { operands kind ≡ 2 }
    requires one { slots kind ≡ 1 }
    requires few { length state.old.lanes < 16384 }
    ensures done { OnOk result (state.new ≡ gate_done net.now.edges v kind state.old) }
    ensures few { OnOk result (length state.new.lanes ≤ length state.old.lanes + 2) }
{
    let lane = state.lanes.len().saturating_sub(2);
    state.move_pair(net.edge_in(v, 0), net.edge_in(v, 1))?;
    state.take_from(lane, node_form(kind))?;
    state.lanes.push(net.edge_out(v, 0))?;
    Ok(())
}
