//! Networks of the tests, written out by node and by edge. That each is a network is computed from the lists.
ghost use Rattle.std.specs.Prelude.{◌≡◌, IfOk, IsTrue};
ghost use Rattle.bx_network.specs.Networks.{network_of};
ghost use Rattle.bx_network.specs.WrittenOut.{is_network};

use bx_forms::Kind;
use bx_logic::NoMemory;
use bx_network::{Edge, MappedNet, Node};
use std::alloc::Global;

// A node of this kind and port.
macro_rules! node {
    ($kind:ident $port:literal) => {
        Node {
            kind: Kind::$kind,
            port: $port,
        }
    };
}

// An edge from a node's slot to a node's operand.
macro_rules! edge {
    ($source:literal $slot:literal to $target:literal $operand:literal) => {
        Edge {
            source: $source,
            slot: $slot,
            target: $target,
            operand: $operand,
        }
    };
}

const PASSING_NODES: &[Node] = &[node!(Input 0), node!(Output 0)];

const PASSING_EDGES: &[Edge] = &[edge!(0 0 to 1 0)];

const INVERSION_NODES: &[Node] = &[node!(Input 0), node!(Not 0), node!(Output 0)];

const INVERSION_EDGES: &[Edge] = &[edge!(0 0 to 1 0), edge!(1 0 to 2 0)];

const CONJUNCTION_NODES: &[Node] = &[
    node!(Input 0),
    node!(Input 1),
    node!(And 0),
    node!(Output 0),
];

const CONJUNCTION_EDGES: &[Edge] = &[edge!(0 0 to 2 0), edge!(1 0 to 2 1), edge!(2 0 to 3 0)];

const HALF_ADDER_NODES: &[Node] = &[
    node!(Input 0),
    node!(Fan 0),
    node!(Input 1),
    node!(Fan 0),
    node!(Xor 0),
    node!(And 0),
    node!(Output 0),
    node!(Output 1),
];

const HALF_ADDER_EDGES: &[Edge] = &[
    edge!(0 0 to 1 0),
    edge!(1 0 to 4 0),
    edge!(1 1 to 5 0),
    edge!(2 0 to 3 0),
    edge!(3 0 to 4 1),
    edge!(3 1 to 5 1),
    edge!(4 0 to 6 0),
    edge!(5 0 to 7 0),
];

const UNUSED_NODES: &[Node] = &[
    node!(Input 0),
    node!(Input 1),
    node!(Not 0),
    node!(And 0),
    node!(Not 0),
    node!(Output 0),
];

const UNUSED_EDGES: &[Edge] = &[
    edge!(0 0 to 3 0),
    edge!(1 0 to 2 0),
    edge!(2 0 to 3 1),
    edge!(3 0 to 4 0),
    edge!(4 0 to 5 0),
];

const TWICE_NODES: &[Node] = &[node!(Input 0), node!(Fan 0), node!(And 0), node!(Output 0)];

const TWICE_EDGES: &[Edge] = &[
    edge!(0 0 to 1 0),
    edge!(1 0 to 2 0),
    edge!(1 1 to 2 1),
    edge!(2 0 to 3 0),
];

const BRANCHING_NODES: &[Node] = &[
    node!(Input 0),
    node!(Fan 0),
    node!(Not 0),
    node!(And 0),
    node!(Output 0),
];

const BRANCHING_EDGES: &[Edge] = &[
    edge!(0 0 to 1 0),
    edge!(1 0 to 2 0),
    edge!(1 1 to 3 1),
    edge!(2 0 to 3 0),
    edge!(3 0 to 4 0),
];

/// An input that leads to an output.
pub fn passing(alloc: Global) -> Result<MappedNet, NoMemory> {
    net_of(alloc, PASSING_NODES, PASSING_EDGES)
}

/// An input whose inversion leads to an output.
pub fn inversion(alloc: Global) -> Result<MappedNet, NoMemory> {
    net_of(alloc, INVERSION_NODES, INVERSION_EDGES)
}

/// Two inputs whose conjunction leads to an output.
pub fn conjunction(alloc: Global) -> Result<MappedNet, NoMemory> {
    net_of(alloc, CONJUNCTION_NODES, CONJUNCTION_EDGES)
}

/// The sum and the carry of two inputs, each of which is handed on to both gates.
pub fn half_adder(alloc: Global) -> Result<MappedNet, NoMemory> {
    net_of(alloc, HALF_ADDER_NODES, HALF_ADDER_EDGES)
}

/// The inversion of the conjunction of one input and the other's inversion.
pub fn unused(alloc: Global) -> Result<MappedNet, NoMemory> {
    net_of(alloc, UNUSED_NODES, UNUSED_EDGES)
}

/// The conjunction of an input with itself: two edges lead from the fan-out to the gate.
pub fn twice(alloc: Global) -> Result<MappedNet, NoMemory> {
    net_of(alloc, TWICE_NODES, TWICE_EDGES)
}

/// The conjunction of an input and its inversion: two ways lead from the fan-out to the gate.
pub fn branching(alloc: Global) -> Result<MappedNet, NoMemory> {
    net_of(alloc, BRANCHING_NODES, BRANCHING_EDGES)
}

fn net_of(alloc: Global, nodes: &[Node], edges: &[Edge]) -> Result<MappedNet, NoMemory>
    requires { IsTrue (is_network nodes.now edges.now) }
    ensures { IfOk result (λ net. net ≡ network_of nodes.now edges.now) }
{
    let nodes = Vec::from_slice(alloc, nodes)?;
    let edges = Vec::from_slice(alloc, edges)?;
    MappedNet::new(alloc, nodes, edges)
}
