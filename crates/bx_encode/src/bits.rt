//! The bits of a layout: for each variable whether what it says holds. They are set node by node and border
//! by border.
ghost use Rattle.std.specs.Prelude.{◌≡◌, ◌≤◌, ◌<◌, ◌-◌, ◌+◌, true, length, slice_set, Some, IfOk};
ghost use Rattle.bx_cnf.specs.Formulas.{AllTrue};
ghost use Rattle.bx_grid.specs.Tiles.{tile_count};
ghost use Rattle.bx_layout.specs.Layouts.{Stands, edge_on};
ghost use Rattle.bx_layout.specs.Legal.{IsPlaced, IsLegal};
ghost use Rattle.bx_layout.specs.Permits.{PermitTest, all_forms};
ghost use Rattle.bx_encode.specs.Variables.{IsVariable, border_count, variable_count, number};
ghost use Rattle.bx_encode.specs.Bits.{AreBitsOf, AreBitsSoFar};
ghost use Rattle.bx_encode.specs.Formula.{formula};
ghost use Rattle.bx_encode.specs.Sizes.{IsFrame};

use crate::formula::counted;
use crate::frame::Frame;
use crate::numbers::{MOST_AREA, MOST_NODES, var_of};
use crate::variable::Variable;
use bx_grid::Ratio;
use bx_layout::Layout;
use bx_logic::NoMemory;
use bx_network::MappedNet;
use std::alloc::Global;

/// The bits of a layout, one for each variable of its ratio's formula: whether what it says holds. They make
/// every clause of the formula true, under each permit under which the layout is legal.
pub fn bits_of(alloc: Global, net: &MappedNet, layout: &Layout) -> Result<Vec<bool>, NoMemory>
    requires legal { IsLegal net.now all_forms layout.now }
    requires nodes { length net.now.nodes ≤ MOST_NODES }
    requires area { tile_count layout.now.ratio ≤ MOST_AREA }
    ensures bits { IfOk result (λ bits. AreBitsOf net.now layout.now bits.items) }
    ensures solve { IfOk result (λ bits. (permit : PermitTest) → IsLegal net.now permit layout.now
        → AllTrue bits.items (formula net.now permit layout.now.ratio).clauses) }
{
    let count = counted(net, layout.ratio);
    let bits = vec![in alloc; false; count as usize]?;
    Ok(marked(net, layout, bits))
}

// The bits, of which none is set yet, with those set whose variables hold.
fn marked(net: &MappedNet, layout: &Layout, mut bits: Vec<bool>) -> Vec<bool>
    requires frame { IsFrame net.now layout.now.ratio }
    requires placed { IsPlaced net.now layout.now }
    requires bits { AreBitsSoFar net.now layout.now 0 0 bits.items }
    ensures { AreBitsOf net.now layout.now result.items }
{
    mark_places(net, layout, &mut bits);
    mark_borders(net, layout, &mut bits);
    bits
}

// Marks where each node stands, and that a node stands there.
fn mark_places(net: &MappedNet, layout: &Layout, bits: &mut [bool])
    requires frame { IsFrame net.now layout.now.ratio }
    requires placed { IsPlaced net.now layout.now }
    requires bits { AreBitsSoFar net.now layout.now 0 0 bits.old }
    ensures { AreBitsSoFar net.now layout.now (length net.now.nodes) 0 bits.new }
{
    let places = layout.places.as_slice();
    let frame = Frame {
        net,
        ratio: layout.ratio,
    };
    for v in 0..frame.node_count() {
        mark_place(net, layout, v, places[v as usize], bits);
    }
}

// Marks that this node stands on this tile.
fn mark_place(net: &MappedNet, layout: &Layout, v: u32, t: u32, bits: &mut [bool])
    requires frame { IsFrame net.now layout.now.ratio }
    requires placed { IsPlaced net.now layout.now }
    requires node { v < length net.now.nodes }
    requires stands { Stands layout.now v t }
    requires bits { AreBitsSoFar net.now layout.now v 0 bits.old }
    ensures { AreBitsSoFar net.now layout.now (v + 1) 0 bits.new }
{
    mark(net, layout.ratio, Variable::NodeOn(v, t), bits);
    mark(net, layout.ratio, Variable::Taken(t), bits);
}

// Marks which borders carry an edge, and which edge.
fn mark_borders(net: &MappedNet, layout: &Layout, bits: &mut [bool])
    requires frame { IsFrame net.now layout.now.ratio }
    requires placed { IsPlaced net.now layout.now }
    requires bits { AreBitsSoFar net.now layout.now (length net.now.nodes) 0 bits.old }
    ensures { AreBitsOf net.now layout.now bits.new }
{
    let borders = layout.borders.as_slice();
    let frame = Frame {
        net,
        ratio: layout.ratio,
    };
    for b in 0..2 * frame.tile_count() {
        mark_border(net, layout, b, borders[b as usize], bits);
    }
}

// Marks that this border carries this edge, if there is one.
fn mark_border(net: &MappedNet, layout: &Layout, b: u32, edge: Option<u32>, bits: &mut [bool])
    requires frame { IsFrame net.now layout.now.ratio }
    requires placed { IsPlaced net.now layout.now }
    requires border { b < border_count layout.now.ratio }
    requires edge { edge ≡ edge_on layout.now b }
    requires bits { AreBitsSoFar net.now layout.now (length net.now.nodes) b bits.old }
    ensures { AreBitsSoFar net.now layout.now (length net.now.nodes) (b + 1) bits.new }
{
    if let Some(e) = edge {
        mark_edge(net, layout, b, e, bits);
    }
}

// Marks that this border carries this edge.
fn mark_edge(net: &MappedNet, layout: &Layout, b: u32, e: u32, bits: &mut [bool])
    requires frame { IsFrame net.now layout.now.ratio }
    requires placed { IsPlaced net.now layout.now }
    requires border { b < border_count layout.now.ratio }
    requires edge { edge_on layout.now b ≡ Some e }
    requires bits { AreBitsSoFar net.now layout.now (length net.now.nodes) b bits.old }
    ensures { AreBitsSoFar net.now layout.now (length net.now.nodes) (b + 1) bits.new }
{
    mark(net, layout.ratio, Variable::Used(b), bits);
    mark(net, layout.ratio, Variable::EdgeOn(e, b), bits);
}

// Sets the bit of a variable.
fn mark(net: &MappedNet, ratio: Ratio, x: Variable, bits: &mut [bool])
    requires frame { IsFrame net.now ratio }
    requires variable { IsVariable net.now ratio x }
    requires all { length bits.old ≡ variable_count net.now ratio }
    ensures { bits.new ≡ slice_set bits.old (number net.now ratio x - 1) true }
{
    bits[var_of(net, ratio, x) as usize - 1] = true;
}
