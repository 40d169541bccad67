//! The clauses on where nodes stand: somewhere, once, apart from each other, on a tile that is taken, and in
//! their windows.
ghost use Rattle.std.specs.Prelude.{◌<◌, ◌∷◌, [], length, if◌then◌else◌, IfOk};
ghost use Rattle.bx_grid.specs.Tiles.{IsTile};
ghost use Rattle.bx_encode.specs.Variables.{isnt};
ghost use Rattle.bx_encode.specs.declared.variable.Variable.TheVariants.{NodeOn};
ghost use Rattle.bx_encode.specs.Families.{stands_somewhere, stands_once, stands_apart, takes, takes_its_tile, is_outside, stays_inside, keeps_its_window};
ghost use Rattle.bx_encode.specs.Writing.{IsFor, Writes};

use crate::frame::Frame;
use crate::literals::{add_nodes_off, add_tiles_of};
use crate::variable::Variable;
use crate::writer::Writer;
use bx_logic::NoMemory;

// Each node stands somewhere.
pub fn add_stands_somewhere(frame: &Frame, to: &mut Writer) -> Result<(), NoMemory>
    requires vars { IsFor frame.now to.old }
    ensures { IfOk result (λ _. Writes frame.now to.old to.new stands_somewhere) }
{
    for v in 0..frame.node_count() {
        to.list.clear();
        add_tiles_of(frame, v, true, &mut to.list)?;
        to.add_list()?;
    }
    Ok(())
}

// No node stands on two tiles.
pub fn add_stands_once(frame: &Frame, to: &mut Writer) -> Result<(), NoMemory>
    requires vars { IsFor frame.now to.old }
    ensures { IfOk result (λ _. Writes frame.now to.old to.new stands_once) }
{
    for v in 0..frame.node_count() {
        to.list.clear();
        add_tiles_of(frame, v, false, &mut to.list)?;
        to.add_pairs()?;
    }
    Ok(())
}

// No tile holds two nodes.
pub fn add_stands_apart(frame: &Frame, to: &mut Writer) -> Result<(), NoMemory>
    requires vars { IsFor frame.now to.old }
    ensures { IfOk result (λ _. Writes frame.now to.old to.new stands_apart) }
{
    for t in 0..frame.tile_count() {
        to.list.clear();
        add_nodes_off(frame, t, &mut to.list)?;
        to.add_pairs()?;
    }
    Ok(())
}

// A tile with a node is taken.
pub fn add_takes_its_tile(frame: &Frame, to: &mut Writer) -> Result<(), NoMemory>
    requires vars { IsFor frame.now to.old }
    ensures { IfOk result (λ _. Writes frame.now to.old to.new takes_its_tile) }
{
    for t in 0..frame.tile_count() {
        add_takes(frame, t, to)?;
    }
    Ok(())
}

// Each node takes this tile, where it stands on it.
fn add_takes(frame: &Frame, t: u32, to: &mut Writer) -> Result<(), NoMemory>
    requires vars { IsFor frame.now to.old }
    requires tile { IsTile frame.now.ratio t }
    ensures { IfOk result (λ _. Writes frame.now to.old to.new (λ N r. takes N r t)) }
{
    let taken = frame.is(Variable::Taken(t));
    for v in 0..frame.node_count() {
        to.add(&[frame.isnt(Variable::NodeOn(v, t)), taken])?;
    }
    Ok(())
}

// A node stands in its window.
pub fn add_keeps_its_window(frame: &Frame, to: &mut Writer) -> Result<(), NoMemory>
    requires vars { IsFor frame.now to.old }
    ensures { IfOk result (λ _. Writes frame.now to.old to.new keeps_its_window) }
{
    for v in 0..frame.node_count() {
        add_window(frame, v, to)?;
    }
    Ok(())
}

// This node stands on none of the tiles outside its window.
fn add_window(frame: &Frame, v: u32, to: &mut Writer) -> Result<(), NoMemory>
    requires vars { IsFor frame.now to.old }
    requires node { v < length frame.now.net.now.nodes }
    ensures { IfOk result (λ _. Writes frame.now to.old to.new (λ N r. stays_inside N r v)) }
{
    for t in 0..frame.tile_count() {
        add_outside(frame, v, t, to)?;
    }
    Ok(())
}

// This node doesn't stand on this tile, if the tile is outside the node's window.
fn add_outside(frame: &Frame, v: u32, t: u32, to: &mut Writer) -> Result<(), NoMemory>
    requires vars { IsFor frame.now to.old }
    requires node { v < length frame.now.net.now.nodes }
    requires tile { IsTile frame.now.ratio t }
    ensures { IfOk result (λ _. Writes frame.now to.old to.new
        (λ N r. if is_outside N r v t then (isnt N r (NodeOn v t) ∷ []) ∷ [] else [])) }
{
    if frame.in_window(v, t) {
        return Ok(());
    }
    to.add(&[frame.isnt(Variable::NodeOn(v, t))])
}
