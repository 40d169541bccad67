//! The clauses on how an edge goes through a tile, rule by rule.
ghost use Rattle.std.specs.Prelude.{◌<◌, ℕ, ◌++◌, ◌∷◌, [], map, length, false, IfOk, Contains};
ghost use Rattle.bx_encode.specs.declared.rule.Rule.TheVariants.{ComesFromAbove, GoesOnBelow, JoinsItsEnds, GoesOneWay, KeepsOffNodes};
ghost use Rattle.bx_cnf.specs.Formulas.{IsClause};
ghost use Rattle.bx_encode.specs.declared.variable.Variable.TheVariants.{EdgeOn};
ghost use Rattle.bx_encode.specs.Variables.{HasBorders, isnt};
ghost use Rattle.bx_encode.specs.Families.{pairs, on_borders, on_some, rule_clauses, keeps_rule_on, keeps_rule};
ghost use Rattle.bx_encode.specs.Sizes.{IsAround};
ghost use Rattle.bx_encode.specs.Writing.{IsFor, Writes};

use crate::around::{Around, exits};
use crate::frame::Frame;
use crate::literals::add_on;
use crate::rule::Rule;
use crate::variable::Variable;
use crate::writer::Writer;
use bx_cnf::Lit;
use bx_forms::Side;
use bx_grid::border;
use bx_logic::NoMemory;

// Each edge keeps the rule on each tile. Before, what is around a tile may be of any tile.
pub fn add_keeps_rule(
    frame: &Frame,
    rule: Rule,
    around: &mut Around,
    to: &mut Writer,
) -> Result<(), NoMemory>
    requires vars { IsFor frame.now to.old }
    ensures { IfOk result (λ _. Writes frame.now to.old to.new (λ N r. keeps_rule N r rule)) }
{
    for t in 0..frame.tile_count() {
        around.look(frame, t)?;
        add_on_tile(frame, rule, around, to)?;
    }
    Ok(())
}

// Each edge keeps the rule on this tile.
fn add_on_tile(frame: &Frame, rule: Rule, around: &Around, to: &mut Writer) -> Result<(), NoMemory>
    requires vars { IsFor frame.now to.old }
    requires around { IsAround frame.now.net.now frame.now.ratio around.now }
    ensures { IfOk result (λ _. Writes frame.now to.old to.new
        (λ N r. keeps_rule_on N r rule around.now.tile)) }
{
    for e in 0..frame.edge_count() {
        add_rule(frame, rule, around, e, to)?;
    }
    Ok(())
}

// This edge keeps the rule on this tile.
fn add_rule(
    frame: &Frame,
    rule: Rule,
    around: &Around,
    e: u32,
    to: &mut Writer,
) -> Result<(), NoMemory>
    requires vars { IsFor frame.now to.old }
    requires around { IsAround frame.now.net.now frame.now.ratio around.now }
    requires edge { e < length frame.now.net.now.edges }
    ensures { IfOk result (λ _. Writes frame.now to.old to.new
        (λ N r. rule_clauses N r rule around.now.tile e)) }
{
    match rule {
        Rule::ComesFromAbove => add_comes_from_above(frame, around, e, to),
        Rule::GoesOnBelow => add_goes_on_below(frame, around, e, to),
        Rule::JoinsItsEnds => add_joins_its_ends(frame, around, e, to),
        Rule::GoesOneWay => add_goes_one_way(frame, around, e, to),
        Rule::KeepsOffNodes => add_keeps_off_nodes(frame, around, e, to),
    }
}

// What leaves the tile has its source there, or enters it.
fn add_comes_from_above(
    frame: &Frame,
    around: &Around,
    e: u32,
    to: &mut Writer,
) -> Result<(), NoMemory>
    requires vars { IsFor frame.now to.old }
    requires around { IsAround frame.now.net.now frame.now.ratio around.now }
    requires edge { e < length frame.now.net.now.edges }
    ensures { IfOk result (λ _. Writes frame.now to.old to.new
        (λ N r. rule_clauses N r ComesFromAbove around.now.tile e)) }
{
    let coming = around.entries.as_slice();
    let leaving = exits(around.tile);
    let begins = frame.is(Variable::NodeOn(frame.source(e), around.tile));
    to.list.clear();
    to.list.push(begins)?;
    add_on(frame, e, true, coming, &mut to.list)?;
    to.add_each(frame, e, &leaving, &[])
}

// What enters the tile has its target there, or leaves it.
fn add_goes_on_below(
    frame: &Frame,
    around: &Around,
    e: u32,
    to: &mut Writer,
) -> Result<(), NoMemory>
    requires vars { IsFor frame.now to.old }
    requires around { IsAround frame.now.net.now frame.now.ratio around.now }
    requires edge { e < length frame.now.net.now.edges }
    ensures { IfOk result (λ _. Writes frame.now to.old to.new
        (λ N r. rule_clauses N r GoesOnBelow around.now.tile e)) }
{
    let coming = around.entries.as_slice();
    let below_left = border(around.tile, Side::Left);
    let below_right = border(around.tile, Side::Right);
    let left = frame.is(Variable::EdgeOn(e, below_left));
    let right = frame.is(Variable::EdgeOn(e, below_right));
    let ends = frame.is(Variable::NodeOn(frame.target(e), around.tile));
    to.list.clear();
    to.list.push(ends)?;
    to.add_each(frame, e, coming, &[left, right])
}

// It leaves the tile of its source, and enters that of its target.
fn add_joins_its_ends(
    frame: &Frame,
    around: &Around,
    e: u32,
    to: &mut Writer,
) -> Result<(), NoMemory>
    requires vars { IsFor frame.now to.old }
    requires around { IsAround frame.now.net.now frame.now.ratio around.now }
    requires edge { e < length frame.now.net.now.edges }
    ensures { IfOk result (λ _. Writes frame.now to.old to.new
        (λ N r. rule_clauses N r JoinsItsEnds around.now.tile e)) }
{
    let coming = around.entries.as_slice();
    let leaving = exits(around.tile);
    let begins = frame.isnt(Variable::NodeOn(frame.source(e), around.tile));
    let ends = frame.isnt(Variable::NodeOn(frame.target(e), around.tile));
    add_some(frame, e, begins, &leaving, to)?;
    add_some(frame, e, ends, coming, to)
}

// It leaves the tile once at most and enters it once at most, and not that of its source, or its target.
fn add_goes_one_way(frame: &Frame, around: &Around, e: u32, to: &mut Writer) -> Result<(), NoMemory>
    requires vars { IsFor frame.now to.old }
    requires around { IsAround frame.now.net.now frame.now.ratio around.now }
    requires edge { e < length frame.now.net.now.edges }
    ensures { IfOk result (λ _. Writes frame.now to.old to.new
        (λ N r. rule_clauses N r GoesOneWay around.now.tile e)) }
{
    let coming = around.entries.as_slice();
    let leaving = exits(around.tile);
    let begins = frame.isnt(Variable::NodeOn(frame.source(e), around.tile));
    let ends = frame.isnt(Variable::NodeOn(frame.target(e), around.tile));
    add_once(frame, e, &leaving, to)?;
    add_once(frame, e, coming, to)?;
    add_none(frame, e, &[begins], coming, to)?;
    add_none(frame, e, &[ends], &leaving, to)
}

// Where the tile is taken, what leaves it has its source there, and what enters it its target.
fn add_keeps_off_nodes(
    frame: &Frame,
    around: &Around,
    e: u32,
    to: &mut Writer,
) -> Result<(), NoMemory>
    requires vars { IsFor frame.now to.old }
    requires around { IsAround frame.now.net.now frame.now.ratio around.now }
    requires edge { e < length frame.now.net.now.edges }
    ensures { IfOk result (λ _. Writes frame.now to.old to.new
        (λ N r. rule_clauses N r KeepsOffNodes around.now.tile e)) }
{
    let coming = around.entries.as_slice();
    let leaving = exits(around.tile);
    let begins = frame.is(Variable::NodeOn(frame.source(e), around.tile));
    let ends = frame.is(Variable::NodeOn(frame.target(e), around.tile));
    let free = frame.isnt(Variable::Taken(around.tile));
    add_none(frame, e, &[begins, free], &leaving, to)?;
    add_none(frame, e, &[ends, free], coming, to)
}

// Adds the clause of this literal and that the edge is on one of these borders.
fn add_some(
    frame: &Frame,
    e: u32,
    first: Lit,
    borders: &[u32],
    to: &mut Writer,
) -> Result<(), NoMemory>
    requires edge { e < length frame.now.net.now.edges }
    requires borders { HasBorders frame.now.ratio borders.now }
    requires clause { IsClause to.old.clauses.vars
        (first ∷ on_some frame.now.net.now frame.now.ratio e borders.now) }
    ensures { IfOk result (λ _. Writes frame.now to.old to.new
        (λ N r. (first ∷ on_some N r e borders.now) ∷ [])) }
{
    to.list.clear();
    to.list.push(first)?;
    add_on(frame, e, true, borders, &mut to.list)?;
    to.add_list()
}

// Adds the clauses that the edge isn't on two of these borders.
fn add_once(frame: &Frame, e: u32, borders: &[u32], to: &mut Writer) -> Result<(), NoMemory>
    requires edge { e < length frame.now.net.now.edges }
    requires borders { HasBorders frame.now.ratio borders.now }
    requires clause { IsClause to.old.clauses.vars
        (on_borders frame.now.net.now frame.now.ratio false e borders.now) }
    ensures { IfOk result (λ _. Writes frame.now to.old to.new
        (λ N r. pairs (on_borders N r false e borders.now))) }
{
    to.list.clear();
    add_on(frame, e, false, borders, &mut to.list)?;
    to.add_pairs()
}

// Adds for each of these borders the clause of these literals and that the edge isn't on it.
fn add_none(
    frame: &Frame,
    e: u32,
    before: &[Lit],
    borders: &[u32],
    to: &mut Writer,
) -> Result<(), NoMemory>
    requires edge { e < length frame.now.net.now.edges }
    requires borders { HasBorders frame.now.ratio borders.now }
    requires clause { (b : ℕ) → Contains borders.now b → IsClause to.old.clauses.vars
        (before.now ++ isnt frame.now.net.now frame.now.ratio (EdgeOn e b) ∷ []) }
    ensures { IfOk result (λ _. Writes frame.now to.old to.new
        (λ N r. map (λ b. before.now ++ isnt N r (EdgeOn e b) ∷ []) borders.now)) }
{
    to.list.clear();
    to.list.extend_from_slice(before)?;
    to.add_each(frame, e, borders, &[])
}
