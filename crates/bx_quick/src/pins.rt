//! The tiles on which inputs and outputs stand, by port order. Each port is looked for among the nodes,
//! since there are few of them where there are few lanes.
ghost use Rattle.std.specs.Prelude.{◌≡◌, ◌<◌, ◌≤◌, ◌+◌, ◌*◌, ◌-◌, [], IfOk, OnOk, length, map, nat_lt};
ghost use Rattle.std.specs.List.{position_or_len, range_with_len};
ghost use Rattle.bx_network.specs.Networks.{output_count as count_of_outputs, is_output as is_output_kind, HasOperand};
ghost use Rattle.bx_network.specs.Values.{edge_into};
ghost use Rattle.bx_layout.specs.Pins.{pin_tiles};
ghost use Rattle.bx_quick.specs.LaneStates.{lane_of as lane_of_edge};
ghost use Rattle.bx_quick.specs.Pins.{pin_at, with_pin, with_inputs, is_output_at as is_node_of, output_node as node_of_output};

use crate::state::State;
use crate::walk::is_input;
use bx_forms::Kind;
use bx_logic::NoMemory;
use bx_network::{MappedNet, Node};
use std::alloc::Global;
use std::marker::Model;

// A port, and the tile that stands for it.
#[derive(Clone, Copy)]
pub struct Pin {
    port: u32,
    tile: u32,
}

impl Model for Pin {
    ghost use Rattle.bx_layout.specs.Pins.{Pin};

    ghost Value = { Pin };

    ghost view = { λ pin. record { port = pin.port; tile = pin.tile } };

    ghost inverse = { λ pin. record { port = pin.port; tile = pin.tile } };
}

// The tiles of the inputs, by port order.
pub fn input_tiles(alloc: Global, net: &MappedNet) -> Result<Vec<u32>, NoMemory>
    requires { length net.now.nodes ≤ 4096 }
    ensures { IfOk result (λ tiles. tiles.items ≡ pin_tiles (with_inputs [] 0 net.now.nodes)) }
{
    let pins = input_pins(alloc, net)?;
    let mut tiles = Vec::new(alloc);
    for pin in &pins {
        tiles.push(pin.tile)?;
    }
    Ok(tiles)
}

// The pins of the inputs, by port order.
fn input_pins(alloc: Global, net: &MappedNet) -> Result<Vec<Pin>, NoMemory>
    requires { length net.now.nodes ≤ 4096 }
    ensures { IfOk result (λ pins. pins.items ≡ with_inputs [] 0 net.now.nodes) }
{
    let mut pins = Vec::new(alloc);
    let mut tile = 0;
    for v in 0..net.node_count() {
        let node = net.node(v);
        if is_input(node.kind) {
            let pin = Pin {
                port: node.port,
                tile,
            };
            put_pin(&mut pins, pin)?;
            tile += 1;
        }
    }
    Ok(pins)
}

// Puts the pin before the first that has a larger port.
fn put_pin(pins: &mut Vec<Pin>, pin: Pin) -> Result<(), NoMemory>
    ensures { OnOk result (pins.new.items ≡ with_pin pins.old.items pin) }
{
    let at = place_of(pins, pin.port);
    pins.insert(at, pin)?;
    Ok(())
}

// Where the first pin with a larger port stands, or how many there are where none has one.
fn place_of(pins: &[Pin], port: u32) -> usize
    ensures is { result ≡ position_or_len (λ other. nat_lt port other.port) pins.now }
    ensures within { result ≤ length pins.now }
{
    for (at, pin) in pins.iter().enumerate() {
        if port < pin.port {
            return at;
        }
    }
    pins.len()
}

// The tiles of the outputs, by port order: those of their lanes, from this tile on.
pub fn output_tiles(
    alloc: Global,
    net: &MappedNet,
    state: &State,
    first: u32,
) -> Result<Vec<u32>, NoMemory>
    requires nodes { length net.now.nodes ≤ 4096 }
    requires lanes { length state.now.lanes ≤ 12288 }
    requires tiles { first ≤ 4194304 }
    ensures { IfOk result (λ tiles. tiles.items ≡ map (λ port. first
        + lane_of_edge state.now.lanes (edge_into net.now.edges (node_of_output net.now port) 0))
        (range_with_len 0 (count_of_outputs net.now))) }
{
    let mut tiles = Vec::new(alloc);
    for port in 0..output_count(net) {
        let edge = net.edge_in(output_node(net, port), 0);
        tiles.push(first + state.lane_of(edge) as u32)?;
    }
    Ok(tiles)
}

// How many outputs there are.
fn output_count(net: &MappedNet) -> u32
    requires { length net.now.nodes ≤ 4096 }
    ensures { result ≡ count_of_outputs net.now }
{
    let mut count = 0;
    for v in 0..net.node_count() {
        if is_output(net.node(v).kind) {
            count += 1;
        }
    }
    count
}

// The node of an output.
fn output_node(net: &MappedNet, port: u32) -> u32
    requires { port < count_of_outputs net.now }
    ensures is { result ≡ node_of_output net.now port }
    ensures output { HasOperand net.now result 0 }
{
    for v in 0..net.node_count() {
        let node = net.node(v);
        if is_output_at(node, port) {
            return v;
        }
    }
    unreachable!()
}

// Whether it is the node of this output.
fn is_output_at(node: Node, port: u32) -> bool
    ensures { result ≡ is_node_of port node }
{
    is_output(node.kind) && node.port == port
}

// Whether a node of this kind is an output.
fn is_output(kind: Kind) -> bool
    ensures { result ≡ is_output_kind kind }
{
    match kind {
        Kind::Output => true,
        _ => false,
    }
}
