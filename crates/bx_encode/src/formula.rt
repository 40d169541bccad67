//! The formula of a ratio: 'some layout of the network is legal there under the permit'. Its clauses come in
//! fourteen families, whose order is fixed, so that a proof may name them by their numbers.
ghost use Rattle.std.specs.Prelude.{◌≡◌, ◌≤◌, length, IfOk};
ghost use Rattle.bx_grid.specs.Tiles.{tile_count, IsGrid};
ghost use Rattle.bx_layout.specs.Permits.{test_of};
ghost use Rattle.bx_encode.specs.Variables.{variable_count};
ghost use Rattle.bx_encode.specs.Formula.{place_clauses, border_clauses, way_clauses, formula};
ghost use Rattle.bx_encode.specs.Sizes.{IsFrame};
ghost use Rattle.bx_encode.specs.Writing.{IsFor, Writes};

use crate::around::Around;
use crate::borders::{add_carries_once, add_is_used, add_stays_on_grid};
use crate::frame::Frame;
use crate::numbers::{MOST_AREA, MOST_NODES};
use crate::permitted::add_is_permitted;
use crate::places::{
    add_keeps_its_window, add_stands_apart, add_stands_once, add_stands_somewhere,
    add_takes_its_tile,
};
use crate::rule::Rule;
use crate::ways::add_keeps_rule;
use crate::writer::Writer;
use bx_cnf::Clauses;
use bx_grid::Ratio;
use bx_layout::Permit;
use bx_logic::NoMemory;
use bx_network::MappedNet;
use std::alloc::Global;

/// The formula of a network and a ratio under a permit. It takes memory for its literals and its clauses
/// alone, and none of its own for a clause.
pub fn encode(
    alloc: Global,
    net: &MappedNet,
    permit: &Permit,
    ratio: Ratio,
) -> Result<Clauses, NoMemory>
    requires grid { IsGrid ratio }
    requires nodes { length net.now.nodes ≤ MOST_NODES }
    requires area { tile_count ratio ≤ MOST_AREA }
    ensures { IfOk result (λ f. f ≡ formula net.now (test_of permit.now) ratio) }
{
    let count = counted(net, ratio);
    let frame = Frame { net, ratio };
    let mut to = Writer {
        list: Vec::new(alloc),
        clauses: Clauses::new(alloc, count),
    };
    add_places(&frame, &mut to)?;
    add_borders(&frame, &mut to)?;
    add_ways(alloc, &frame, &mut to)?;
    add_is_permitted(&frame, permit, &mut to)?;
    Ok(to.clauses)
}

// How many variables there are. A network has two edges for each node at most.
pub fn counted(net: &MappedNet, ratio: Ratio) -> u32
    requires grid { IsGrid ratio }
    requires nodes { length net.now.nodes ≤ MOST_NODES }
    requires area { tile_count ratio ≤ MOST_AREA }
    ensures is { result ≡ variable_count net.now ratio }
    ensures few { result ≤ 2147483647 }
    ensures frame { IsFrame net.now ratio }
{
    let _nodes = net.node_count();
    let frame = Frame { net, ratio };
    frame.variable_count()
}

// Where nodes stand.
fn add_places(frame: &Frame, to: &mut Writer) -> Result<(), NoMemory>
    requires vars { IsFor frame.now to.old }
    ensures { IfOk result (λ _. Writes frame.now to.old to.new place_clauses) }
{
    add_stands_somewhere(frame, to)?;
    add_stands_once(frame, to)?;
    add_stands_apart(frame, to)?;
    add_takes_its_tile(frame, to)?;
    add_keeps_its_window(frame, to)
}

// What borders carry.
fn add_borders(frame: &Frame, to: &mut Writer) -> Result<(), NoMemory>
    requires vars { IsFor frame.now to.old }
    ensures { IfOk result (λ _. Writes frame.now to.old to.new border_clauses) }
{
    add_stays_on_grid(frame, to)?;
    add_carries_once(frame, to)?;
    add_is_used(frame, to)
}

// How edges go through tiles.
fn add_ways(alloc: Global, frame: &Frame, to: &mut Writer) -> Result<(), NoMemory>
    requires vars { IsFor frame.now to.old }
    ensures { IfOk result (λ _. Writes frame.now to.old to.new way_clauses) }
{
    let mut around = Around::new(alloc);
    add_keeps_rule(frame, Rule::ComesFromAbove, &mut around, to)?;
    add_keeps_rule(frame, Rule::GoesOnBelow, &mut around, to)?;
    add_keeps_rule(frame, Rule::JoinsItsEnds, &mut around, to)?;
    add_keeps_rule(frame, Rule::GoesOneWay, &mut around, to)?;
    add_keeps_rule(frame, Rule::KeepsOffNodes, &mut around, to)?;
    Ok(())
}
