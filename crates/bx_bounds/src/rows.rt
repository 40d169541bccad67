//! Relations of the nodes of a network as rows of bits, on the stack: row u has bit t where u
//! stands in the relation to t. Each is made in one walk over the edges, which ascend by their
//! source and lead to nodes further on.
ghost use Rattle.std.specs.Prelude.{◌≡◌, ◌↔◌, ℕ, ◌<◌, ◌≤◌, length};
ghost use Rattle.bx_bounds.specs.Ancestors.{IsAncestor};
ghost use Rattle.bx_bounds.specs.Rows.{HasBit, AreRowsOf, Enters, EntersFromAbove};

use bx_network::MappedNet;

/// The most nodes of a network whose edges are counted.
pub const MOST_COUNTED: usize = 128;

// A row of bits for each node.
pub type Rows = [u128; MOST_COUNTED];

// The descendants of each node, from the last edge to the first: when an edge is looked at, the row
// of its target is whole.
pub fn descendants(net: &MappedNet) -> Rows
    requires { length net.now.nodes ≤ 128 }
    ensures { AreRowsOf (IsAncestor net.now.edges) result }
{
    let mut rows = [0u128; MOST_COUNTED];
    for past in 0..net.edge_count() {
        let edge = net.edge(net.edge_count() - 1 - past);
        let (source, target) = (edge.source as usize, edge.target as usize);
        rows[source] = rows[source] | (bit(edge.target) | rows[target]);
    }
    rows
}

// The nodes that an edge from a node, or from an ancestor of it, enters by this operand, from the
// first edge to the last: when an edge is looked at, the row of its source is whole.
pub fn entered_from_above(net: &MappedNet, operand: u8) -> Rows
    requires { length net.now.nodes ≤ 128 }
    ensures { AreRowsOf (EntersFromAbove net.now.edges operand) result }
{
    let mut rows = entered(net, operand);
    for e in 0..net.edge_count() {
        let edge = net.edge(e);
        let (source, target) = (edge.source as usize, edge.target as usize);
        rows[target] = rows[target] | rows[source];
    }
    rows
}

// The nodes that an edge from a node enters by this operand.
fn entered(net: &MappedNet, operand: u8) -> Rows
    requires { length net.now.nodes ≤ 128 }
    ensures { AreRowsOf (Enters net.now.edges operand) result }
{
    let mut rows = [0u128; MOST_COUNTED];
    for e in 0..net.edge_count() {
        let edge = net.edge(e);
        if edge.operand == operand {
            let source = edge.source as usize;
            rows[source] = rows[source] | bit(edge.target);
        }
    }
    rows
}

// The number that has this bit alone.
fn bit(v: u32) -> u128
    requires { v < 128 }
    ensures { (t : ℕ) → HasBit result t ↔ (t ≡ v) }
{
    1u128 << v
}
