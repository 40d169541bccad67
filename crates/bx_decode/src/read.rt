//! The layout that true bits mean: the tile of each node, and the edge on each border, read from the bits of
//! these alone, each of which is looked at once at most.
ghost use Rattle.std.specs.Prelude.{◌≡◌, ◌≤◌, ◌<◌, false, length, IfOk, slice_index_or};
ghost use Rattle.bx_cnf.specs.Literals.{value_of};
ghost use Rattle.bx_decode.specs.Meaning.{AreTrue, IsSet, Means};
ghost use Rattle.bx_decode.specs.Reading.{StandSomewhere, CarriesBy, ArePlaces, AreBorders};
ghost use Rattle.bx_encode.specs.Sizes.{IsFrame};
ghost use Rattle.bx_encode.specs.Variables.{IsVariable, border_count, number};
ghost use Rattle.bx_encode.specs.declared.variable.Variable.TheVariants.{NodeOn};
ghost use Rattle.bx_grid.specs.Tiles.{tile_count, IsGrid};
ghost use Rattle.bx_layout.specs.Legal.{IsLegal};
ghost use Rattle.bx_layout.specs.Permits.{test_of};

use bx_encode::{MOST_AREA, MOST_NODES, Variable, var_of};
use bx_grid::Ratio;
use bx_layout::{Borders, Layout, Permit, Places};
use bx_logic::NoMemory;
use bx_network::MappedNet;
use std::alloc::Global;

/// The layout that true bits of a ratio's formula mean: a node stands on a tile, and a border carries an edge,
/// exactly where the bit of that is true. It is legal under the permit of the formula. Time is linear in the
/// bits, and memory in the nodes and borders.
///
/// # Errors
///
/// `NoMemory` if memory is refused for its places and borders.
pub fn decode(
    alloc: Global,
    net: &MappedNet,
    permit: &Permit,
    ratio: Ratio,
    bits: &[bool],
) -> Result<Layout, NoMemory>
    requires grid { IsGrid ratio }
    requires nodes { length net.now.nodes ≤ MOST_NODES }
    requires area { tile_count ratio ≤ MOST_AREA }
    requires true_bits { AreTrue net.now (test_of permit.now) ratio bits.now }
    ensures means { IfOk result (λ layout. Means net.now ratio bits.now layout) }
    ensures legal { IfOk result (λ layout. IsLegal net.now (test_of permit.now) layout) }
{
    let _permit = permit;
    let _nodes = net.node_count();
    let places = read_places(alloc, net, ratio, bits)?;
    let borders = read_borders(alloc, net, ratio, bits)?;
    Ok(Layout {
        ratio,
        places: Places::new(places),
        borders: Borders::new(borders),
    })
}

// The tile of each node.
fn read_places(
    alloc: Global,
    net: &MappedNet,
    ratio: Ratio,
    bits: &[bool],
) -> Result<Vec<u32>, NoMemory>
    requires frame { IsFrame net.now ratio }
    requires stand { StandSomewhere net.now ratio bits.now }
    ensures { IfOk result (λ places.
        ArePlaces net.now ratio bits.now (length net.now.nodes) places.items) }
{
    let mut places = Vec::new(alloc);
    for v in 0..net.node_count() {
        places.push(tile_of(net, ratio, v, bits))?;
    }
    Ok(places)
}

// The first tile on which this node stands.
fn tile_of(net: &MappedNet, ratio: Ratio, v: u32, bits: &[bool]) -> u32
    requires frame { IsFrame net.now ratio }
    requires node { v < length net.now.nodes }
    requires stand { StandSomewhere net.now ratio bits.now }
    ensures { IsSet net.now ratio bits.now (NodeOn v result) }
{
    for t in 0..tiles_of(net, ratio) {
        if is_set(net, ratio, Variable::NodeOn(v, t), bits) {
            return t;
        }
    }
    unreachable!()
}

// The edge on each border, or none.
fn read_borders(
    alloc: Global,
    net: &MappedNet,
    ratio: Ratio,
    bits: &[bool],
) -> Result<Vec<Option<u32>>, NoMemory>
    requires { IsFrame net.now ratio }
    ensures { IfOk result (λ borders.
        AreBorders net.now ratio bits.now (border_count ratio) borders.items) }
{
    let mut borders = Vec::new(alloc);
    for b in 0..2 * tiles_of(net, ratio) {
        borders.push(edge_on(net, ratio, b, bits))?;
    }
    Ok(borders)
}

// The first edge that this border carries, if there is one.
fn edge_on(net: &MappedNet, ratio: Ratio, b: u32, bits: &[bool]) -> Option<u32>
    requires frame { IsFrame net.now ratio }
    requires border { b < border_count ratio }
    ensures { CarriesBy net.now ratio bits.now b result }
{
    for e in 0..net.edge_count() {
        if is_set(net, ratio, Variable::EdgeOn(e, b), bits) {
            return Some(e);
        }
    }
    None
}

// Whether the bit of a variable is true.
fn is_set(net: &MappedNet, ratio: Ratio, x: Variable, bits: &[bool]) -> bool
    requires frame { IsFrame net.now ratio }
    requires variable { IsVariable net.now ratio x }
    ensures { result ≡ value_of bits.now (number net.now ratio x) }
{
    is_true(bits, var_of(net, ratio, x) as usize - 1)
}

// Whether there is a bit at this place, and it is true.
fn is_true(bits: &[bool], place: usize) -> bool
    ensures { result ≡ slice_index_or bits.now place false }
{
    place < bits.len() && bits[place]
}

// How many tiles there are.
fn tiles_of(net: &MappedNet, ratio: Ratio) -> u32
    requires { IsFrame net.now ratio }
    ensures is { result ≡ tile_count ratio }
    ensures few { result ≤ 144 }
{
    let _frame = net;
    ratio.w * ratio.h
}
