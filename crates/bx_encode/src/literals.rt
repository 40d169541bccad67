//! Lists of literals that are told by where they begin and by how much they rise.
ghost use Rattle.std.specs.Prelude.{◌≡◌, ◌<◌, ◌≤◌, ◌^◌, ◌++◌, length, IfOk, false};
ghost use Rattle.bx_grid.specs.Tiles.{IsTile};
ghost use Rattle.bx_encode.specs.Variables.{border_count, HasBorders};
ghost use Rattle.bx_encode.specs.Families.{on_tiles, nodes_on, edges_on, on_borders};
ghost use Rattle.bx_encode.specs.Writing.{rising};

use crate::frame::Frame;
use bx_cnf::Lit;
use bx_logic::NoMemory;

// Puts literals of this many variables behind the others: the first, and each next one so much higher.
fn add_rising(
    first: u32,
    step: u32,
    count: u32,
    positive: bool,
    list: &mut Vec<Lit>,
) -> Result<(), NoMemory>
    requires above { 0 < first }
    requires first { first ≤ 70000 }
    requires step { step ≤ 300 }
    requires count { count ≤ 200 }
    ensures { IfOk result (λ _. list.new.items ≡ list.old.items
        ++ rising first step positive count) }
{
    for k in 0..count {
        list.push(literal(first + k * step, positive))?;
    }
    Ok(())
}

// Puts the literals that a node stands on each of the tiles behind the others.
pub fn add_tiles_of(
    frame: &Frame,
    v: u32,
    positive: bool,
    list: &mut Vec<Lit>,
) -> Result<(), NoMemory>
    requires node { v < length frame.now.net.now.nodes }
    ensures { IfOk result (λ _. list.new.items ≡ list.old.items
        ++ on_tiles frame.now.net.now frame.now.ratio positive v) }
{
    add_rising(frame.node_on(v, 0), 1, frame.tile_count(), positive, list)
}

// Puts the literals that no node stands on a tile behind the others.
pub fn add_nodes_off(frame: &Frame, t: u32, list: &mut Vec<Lit>) -> Result<(), NoMemory>
    requires tile { IsTile frame.now.ratio t }
    ensures { IfOk result (λ _. list.new.items ≡ list.old.items
        ++ nodes_on frame.now.net.now frame.now.ratio false t) }
{
    add_rising(
        frame.node_on(0, t),
        frame.tile_count(),
        frame.node_count(),
        false,
        list,
    )
}

// Puts the literals that each of the edges is on a border behind the others.
pub fn add_edges_on(
    frame: &Frame,
    b: u32,
    positive: bool,
    list: &mut Vec<Lit>,
) -> Result<(), NoMemory>
    requires border { b < border_count frame.now.ratio }
    ensures { IfOk result (λ _. list.new.items ≡ list.old.items
        ++ edges_on frame.now.net.now frame.now.ratio positive b) }
{
    add_rising(
        frame.edge_on(0, b),
        2 * frame.tile_count(),
        frame.edge_count(),
        positive,
        list,
    )
}

// Puts the literals that an edge is on each of these borders behind the others.
pub fn add_on(
    frame: &Frame,
    e: u32,
    positive: bool,
    borders: &[u32],
    list: &mut Vec<Lit>,
) -> Result<(), NoMemory>
    requires edge { e < length frame.now.net.now.edges }
    requires borders { HasBorders frame.now.ratio borders.now }
    ensures { IfOk result (λ _. list.new.items ≡ list.old.items
        ++ on_borders frame.now.net.now frame.now.ratio positive e borders.now) }
{
    for b in borders {
        list.push(literal(frame.edge_on(e, *b), positive))?;
    }
    Ok(())
}

// The variable itself where it is to be true, and else its negation.
fn literal(var: u32, positive: bool) -> Lit
    requires above { 0 < var }
    requires below { var < 2 ^ 31 }
    ensures { result ≡ record { var = var; positive = positive } }
{
    if positive {
        Lit::positive(var)
    } else {
        Lit::negative(var)
    }
}
