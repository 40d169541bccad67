//! The mapped network as a value that keeps what it is: with it stand the lengths of its longest paths and
//! where each of its edges is found, made once. Which networks come of a net is for the mapping to say.
ghost use Rattle.std.specs.Prelude.{◌≡◌, ◌<◌, ◌↔◌, ℕ, IfOk, IsTrue, Some, length, slice_get};
ghost use Rattle.bx_forms.specs.declared.kind.Kind.TheVariants.{Input};
ghost use Rattle.bx_network.specs.Networks.{IsNetwork, network_of, HasSlot, HasOperand, HasPort};
ghost use Rattle.bx_network.specs.Values.{edge_into, edge_out};
ghost use Rattle.bx_network.specs.Paths.{IsDown, IsUp};
ghost use Rattle.bx_network.specs.Windows.{IsInWindow, MayStand};

use crate::ends::{Ends, WAYS};
use crate::{Edge, Node, lengths};
use bx_forms::Kind;
use bx_logic::NoMemory;
use std::alloc::Global;
use std::marker::Model;

/// A mapped network. Contracts see its list of nodes and its list of edges, which are a network.
#[derive(Drop)]
pub struct MappedNet {
    nodes: Vec<Node>,
    edges: Vec<Edge>,
    // The longest path to each node, and from it.
    downs: Vec<u32>,
    ups: Vec<u32>,
    ends: Ends,
}

impl Model for MappedNet {
    ghost use Rattle.bx_network.specs.Networks.{Network};

    ghost Value = { Network };

    ghost use Rattle.bx_network.specs.Networks.{network_of};
    ghost use Rattle.bx_network.specs.Mapped.{IsMapped};

    ghost view = { λ net. network_of net.nodes.items net.edges.items };

    ghost invariant = { λ net. IsMapped (network_of net.nodes.items net.edges.items)
        net.downs.items net.ups.items net.ends.outs.items net.ends.ins.items };
}

impl MappedNet {
    /// The network of these nodes and edges. Time and memory are linear in their number.
    pub fn new(alloc: Global, nodes: Vec<Node>, edges: Vec<Edge>) -> Result<MappedNet, NoMemory>
        requires { IsNetwork (network_of nodes.items edges.items) }
        ensures { IfOk result (λ net. net ≡ network_of nodes.items edges.items) }
    {
        let downs = lengths::downs(alloc, &nodes, &edges)?;
        let ups = lengths::ups(alloc, &nodes, &edges)?;
        let ends = Ends::of(alloc, &nodes, &edges)?;
        Ok(MappedNet {
            nodes,
            edges,
            downs,
            ups,
            ends,
        })
    }

    /// How many nodes there are.
    pub fn node_count(&self) -> u32
        ensures count { result ≡ length self.now.nodes }
        ensures network { IsNetwork self.now }
    {
        self.nodes.len() as u32
    }

    /// How many edges there are.
    pub fn edge_count(&self) -> u32
        ensures count { result ≡ length self.now.edges }
        ensures network { IsNetwork self.now }
    {
        self.edges.len() as u32
    }

    /// The node with this number.
    pub fn node(&self, v: u32) -> Node
        requires { v < length self.now.nodes }
        ensures { slice_get self.now.nodes v ≡ Some result }
    {
        self.nodes[v as usize]
    }

    /// The edge with this number.
    pub fn edge(&self, e: u32) -> Edge
        requires { e < length self.now.edges }
        ensures { slice_get self.now.edges e ≡ Some result }
    {
        self.edges[e as usize]
    }

    /// How many edges the longest path from an input to the node has.
    pub fn down(&self, v: u32) -> u32
        requires { v < length self.now.nodes }
        ensures { IsDown self.now v result }
    {
        self.downs[v as usize]
    }

    /// How many edges the longest path from the node to an output has.
    pub fn up(&self, v: u32) -> u32
        requires { v < length self.now.nodes }
        ensures { IsUp self.now v result }
    {
        self.ups[v as usize]
    }

    /// The number of the edge that leaves the node by this slot. It takes constant time.
    pub fn edge_out(&self, v: u32, slot: u8) -> u32
        requires { HasSlot self.now v slot }
        ensures { result ≡ edge_out self.now.edges v slot }
    {
        self.ends.outs[WAYS * v as usize + usize::from(slot)]
    }

    /// The number of the edge that enters the node by this operand. It takes constant time.
    pub fn edge_in(&self, v: u32, operand: u8) -> u32
        requires { HasOperand self.now v operand }
        ensures { result ≡ edge_into self.now.edges v operand }
    {
        self.ends.ins[WAYS * v as usize + usize::from(operand)]
    }

    /// Whether the node may stand in this row of so many: an input in row 0, an output in the last, and any
    /// other node where there is room for its longest paths.
    pub fn in_window(&self, v: u32, row: u32, height: u32) -> bool
        requires { v < length self.now.nodes }
        ensures { IsTrue result ↔ IsInWindow self.now v row height }
    {
        may_stand(self.node(v).kind, self.down(v), self.up(v), row, height)
    }
}

// Whether a node of this kind, with longest paths of these lengths to it and from it, may stand in this row.
fn may_stand(kind: Kind, down: u32, up: u32, row: u32, height: u32) -> bool
    ensures { IsTrue result ↔ MayStand kind down up row height }
{
    match kind {
        Kind::Input => row == 0,
        Kind::Output => u64::from(row) + 1 == u64::from(height),
        _ => down <= row && u64::from(row) + u64::from(up) + 1 <= u64::from(height),
    }
}

/// Whether no node has this input port. It looks at every node.
pub fn is_unused(mapped: &MappedNet, input: u32) -> bool
    ensures { IsTrue result ↔ ((v : ℕ) → HasPort mapped.now v Input input → ⊥) }
{
    for node in &mapped.nodes {
        if node.kind == Kind::Input && node.port == input {
            return false;
        }
    }
    true
}
