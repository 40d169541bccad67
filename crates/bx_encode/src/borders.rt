//! The clauses on what borders carry: nothing that leads off the grid, one edge at most, and that a border is
//! used exactly if it carries one.
ghost use Rattle.std.specs.Prelude.{◌<◌, ◌∷◌, [], if◌then◌else◌, IfOk};
ghost use Rattle.bx_grid.specs.Tiles.{IsTile, border};
ghost use Rattle.bx_encode.specs.Variables.{border_count};
ghost use Rattle.bx_encode.specs.Families.{leads_off, carries_nothing, stays_at, stays_on_grid, carries_once, uses, carries_some, is_used};
ghost use Rattle.bx_encode.specs.Writing.{IsFor, Writes};

use crate::frame::Frame;
use crate::literals::add_edges_on;
use crate::variable::Variable;
use crate::writer::Writer;
use bx_forms::Side;
use bx_logic::NoMemory;

// A border that leads off the grid carries nothing.
pub fn add_stays_on_grid(frame: &Frame, to: &mut Writer) -> Result<(), NoMemory>
    requires vars { IsFor frame.now to.old }
    ensures { IfOk result (λ _. Writes frame.now to.old to.new stays_on_grid) }
{
    for t in 0..frame.tile_count() {
        add_stays_at(frame, t, to)?;
    }
    Ok(())
}

// The lower sides of the tile that lead off the grid carry nothing.
fn add_stays_at(frame: &Frame, t: u32, to: &mut Writer) -> Result<(), NoMemory>
    requires vars { IsFor frame.now to.old }
    requires tile { IsTile frame.now.ratio t }
    ensures { IfOk result (λ _. Writes frame.now to.old to.new (λ N r. stays_at N r t)) }
{
    add_stays(frame, t, Side::Left, to)?;
    add_stays(frame, t, Side::Right, to)
}

// This lower side of the tile carries nothing, if it leads off the grid.
fn add_stays(frame: &Frame, t: u32, side: Side, to: &mut Writer) -> Result<(), NoMemory>
    requires vars { IsFor frame.now to.old }
    requires tile { IsTile frame.now.ratio t }
    ensures { IfOk result (λ _. Writes frame.now to.old to.new
        (λ N r. if leads_off N r t side then carries_nothing N r (border t side) else [])) }
{
    if bx_grid::below(frame.ratio, t, side).is_some() {
        return Ok(());
    }
    add_carries_nothing(frame, bx_grid::border(t, side), to)
}

// No edge is on this border.
fn add_carries_nothing(frame: &Frame, b: u32, to: &mut Writer) -> Result<(), NoMemory>
    requires vars { IsFor frame.now to.old }
    requires border { b < border_count frame.now.ratio }
    ensures { IfOk result (λ _. Writes frame.now to.old to.new (λ N r. carries_nothing N r b)) }
{
    for e in 0..frame.edge_count() {
        to.add(&[frame.isnt(Variable::EdgeOn(e, b))])?;
    }
    Ok(())
}

// A border carries one edge at most.
pub fn add_carries_once(frame: &Frame, to: &mut Writer) -> Result<(), NoMemory>
    requires vars { IsFor frame.now to.old }
    ensures { IfOk result (λ _. Writes frame.now to.old to.new carries_once) }
{
    for b in 0..2 * frame.tile_count() {
        to.list.clear();
        add_edges_on(frame, b, false, &mut to.list)?;
        to.add_pairs()?;
    }
    Ok(())
}

// A border is used exactly if it carries an edge.
pub fn add_is_used(frame: &Frame, to: &mut Writer) -> Result<(), NoMemory>
    requires vars { IsFor frame.now to.old }
    ensures { IfOk result (λ _. Writes frame.now to.old to.new is_used) }
{
    for b in 0..2 * frame.tile_count() {
        add_uses(frame, b, to)?;
        add_carries_some(frame, b, to)?;
    }
    Ok(())
}

// Each edge uses this border, where it is on it.
fn add_uses(frame: &Frame, b: u32, to: &mut Writer) -> Result<(), NoMemory>
    requires vars { IsFor frame.now to.old }
    requires border { b < border_count frame.now.ratio }
    ensures { IfOk result (λ _. Writes frame.now to.old to.new (λ N r. uses N r b)) }
{
    let used = frame.is(Variable::Used(b));
    for e in 0..frame.edge_count() {
        to.add(&[used, frame.isnt(Variable::EdgeOn(e, b))])?;
    }
    Ok(())
}

// This border carries an edge, where it is used.
fn add_carries_some(frame: &Frame, b: u32, to: &mut Writer) -> Result<(), NoMemory>
    requires vars { IsFor frame.now to.old }
    requires border { b < border_count frame.now.ratio }
    ensures { IfOk result (λ _. Writes frame.now to.old to.new (λ N r. carries_some N r b ∷ [])) }
{
    to.list.clear();
    to.list.push(frame.isnt(Variable::Used(b)))?;
    add_edges_on(frame, b, true, &mut to.list)?;
    to.add_list()
}
