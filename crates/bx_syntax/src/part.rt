//! The reader of an item's parts: what stands between two of its commas.
ghost use Rattle.std.specs.Prelude.{◌≡◌};
ghost use Rattle.bx_syntax.specs.Trees.{tree};
ghost use Rattle.bx_syntax.specs.Parts.{part};
ghost use Rattle.bx_syntax.specs.ReadsModules.{expression, comma_step, more_at, more_names_at, wire_at, assign_at, many_at, few_at, connections_at, driven_at, gate_at, part_at};
ghost use Rattle.bx_syntax.specs.Gives.{Gives, GivesList};

use crate::expression::{DEEPEST, expression};
use crate::lookahead::{expect, name, next_is, skip_name};
use crate::stop::Stop;
use crate::terminal::{Mark, Terminal};
use crate::tree::{Direction, Expr, Part};
use bx_logic::{Name, Op};
use std::alloc::Global;
use std::collections::VecDeque;

/// What the first word of an item makes of its parts.
#[derive(Clone, Copy)]
pub enum Kind {
    Declaration(Direction),
    Wire,
    Assign,
    Gate(Op),
}

// A part of an item of a kind.
pub(crate) fn part(
    alloc: Global,
    terminals: &mut VecDeque<Terminal>,
    kind: Kind,
) -> Result<Part, Stop>
    ensures { Gives part terminals.new.items result (part_at DEEPEST kind terminals.old.items) }
{
    match kind {
        Kind::Declaration(direction) => Ok(Part::Declaration(direction, name(terminals)?)),
        Kind::Wire => wire(alloc, terminals),
        Kind::Assign => assign(alloc, terminals),
        Kind::Gate(op) => gate(alloc, terminals, op),
    }
}

// A wire, and what drives it where that stands there.
#[tactic(auto, unfolding(crate::specs::ReadsModules::wire_at))]
fn wire(alloc: Global, terminals: &mut VecDeque<Terminal>) -> Result<Part, Stop>
    ensures { Gives part terminals.new.items result (wire_at DEEPEST terminals.old.items) }
{
    let name = name(terminals)?;
    if !next_is(terminals, Mark::Equals) {
        return Ok(Part::Wire(name, None));
    }
    expect(terminals, Mark::Equals)?;
    let driver = expression(alloc, terminals)?;
    Ok(Part::Wire(name, Some(driver)))
}

#[tactic(auto, unfolding(crate::specs::ReadsModules::assign_at))]
fn assign(alloc: Global, terminals: &mut VecDeque<Terminal>) -> Result<Part, Stop>
    ensures { Gives part terminals.new.items result (assign_at DEEPEST terminals.old.items) }
{
    let name = name(terminals)?;
    expect(terminals, Mark::Equals)?;
    let driver = expression(alloc, terminals)?;
    Ok(Part::Assign(name, driver))
}

// A gate, behind its keyword or a comma.
#[tactic(auto, unfolding(crate::specs::ReadsModules::gate_at))]
fn gate(alloc: Global, terminals: &mut VecDeque<Terminal>, op: Op) -> Result<Part, Stop>
    ensures { Gives part terminals.new.items result (gate_at DEEPEST op terminals.old.items) }
{
    let driven = driven(terminals)?;
    let gate = connections(alloc, terminals, op, driven)?;
    expect(terminals, Mark::Close)?;
    Ok(gate)
}

// The first name in the parentheses of a gate, behind its label and before the comma.
fn driven(terminals: &mut VecDeque<Terminal>) -> Result<Name, Stop>
    ensures { Gives (λ n. n) terminals.new.items result (driven_at terminals.old.items) }
{
    skip_name(terminals);
    expect(terminals, Mark::Open)?;
    let name = name(terminals)?;
    expect(terminals, Mark::Comma)?;
    Ok(name)
}

// What stands behind the first name in the parentheses of a gate.
fn connections(
    alloc: Global,
    terminals: &mut VecDeque<Terminal>,
    op: Op,
    driven: Name,
) -> Result<Part, Stop>
    ensures { Gives part terminals.new.items result
        (connections_at DEEPEST op driven terminals.old.items) }
{
    match op {
        Op::Buf | Op::Not => few(alloc, terminals, op, driven),
        Op::And | Op::Or | Op::Nand | Op::Nor | Op::Xor | Op::Xnor => {
            many(alloc, terminals, op, driven)
        }
    }
}

// The arguments of an n-ary gate.
#[tactic(auto, unfolding(crate::specs::ReadsModules::many_at))]
fn many(
    alloc: Global,
    terminals: &mut VecDeque<Terminal>,
    op: Op,
    driven: Name,
) -> Result<Part, Stop>
    ensures { Gives part terminals.new.items result
        (many_at DEEPEST op driven terminals.old.items) }
{
    let first = expression(alloc, terminals)?;
    let arguments = more_expressions(alloc, terminals, first)?;
    Ok(Part::Gate(op, driven, arguments))
}

// The expressions behind the first one, each behind a comma.
fn more_expressions(
    alloc: Global,
    terminals: &mut VecDeque<Terminal>,
    first: Expr,
) -> Result<Vec<Expr>, Stop>
    ensures { GivesList tree terminals.new.items result
        (more_at (expression DEEPEST) (tree first) terminals.old.items) }
{
    let mut expressions = vec![in alloc; first]?;
    'more: while next_is(terminals, Mark::Comma) {
        let expression = next_expression(alloc, terminals)?;
        expressions.push(expression)?;
    }
    Ok(expressions)
}

// An expression behind a comma.
fn next_expression(alloc: Global, terminals: &mut VecDeque<Terminal>) -> Result<Expr, Stop>
    ensures { Gives (λ e. (tree e, tt)) terminals.new.items result
        (comma_step (expression DEEPEST) tt terminals.old.items) }
{
    expect(terminals, Mark::Comma)?;
    expression(alloc, terminals)
}

// The terminals of a `buf` or a `not`.
#[tactic(auto, unfolding(crate::specs::ReadsModules::few_at))]
fn few(
    alloc: Global,
    terminals: &mut VecDeque<Terminal>,
    op: Op,
    driven: Name,
) -> Result<Part, Stop>
    ensures { Gives part terminals.new.items result (few_at DEEPEST op driven terminals.old.items) }
{
    let second = expression(alloc, terminals)?;
    let (names, argument) = more_names(alloc, terminals, driven, second)?;
    Ok(Part::Copies(op, names, argument))
}

// The names and the last expression of a `buf` or a `not`, behind the first name and where the
// expression behind it is read. An expression that is a name, with a comma behind it, is one more name.
fn more_names(
    alloc: Global,
    terminals: &mut VecDeque<Terminal>,
    first: Name,
    second: Expr,
) -> Result<(Vec<Name>, Expr), Stop>
    ensures { Gives (λ x. (x.0.items, tree x.1)) terminals.new.items result
        (more_names_at DEEPEST first (tree second) terminals.old.items) }
{
    let mut names = vec![in alloc; first]?;
    let mut last = second;
    'more: while next_is(terminals, Mark::Comma) {
        match last {
            Expr::Net(name) => names.push(name)?,
            other => return Ok((names, other)),
        }
        last = next_expression(alloc, terminals)?;
    }
    Ok((names, last))
}
