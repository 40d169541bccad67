//! The reader of expressions. It recurses at `~` and `(` alone, and no deeper than it is told.
ghost use Rattle.std.specs.Prelude.{◌≡◌, ◌∷◌, suc, length, IfOk, IfErr};
ghost use Rattle.bx_syntax.specs.Trees.{tree, tail, joined};
ghost use Rattle.bx_syntax.specs.ReadsExpressions.{primary_at, level_at, tail_at, joined_at, inverse_at, group_at};
ghost use Rattle.bx_syntax.specs.ReadsModules.{expression};
ghost use Rattle.bx_syntax.specs.Gives.{Gives};

use crate::lookahead::{expect, operator_at, take};
use crate::stop::{Stop, Wanted};
use crate::terminal::{Mark, Terminal};
use crate::tree::{Expr, Operand, Operator};
use std::alloc::Global;
use std::collections::VecDeque;

// How deep `~` and `(` may nest.
pub(crate) const DEEPEST: u32 = 256;

// The level of expressions: operands of the levels below it are joined by `&`, `^` and `|`.
const EXPRESSION: u8 = 3;

// An expression.
#[tactic(auto, unfolding(crate::specs::ReadsModules::expression))]
pub(crate) fn expression(alloc: Global, terminals: &mut VecDeque<Terminal>) -> Result<Expr, Stop>
    ensures { Gives tree terminals.new.items result (expression DEEPEST terminals.old.items) }
{
    level(alloc, terminals, EXPRESSION, DEEPEST)
}

// An operand of a level in which nothing nests deeper.
#[cycle(expressions)]
fn level(
    alloc: Global,
    terminals: &mut VecDeque<Terminal>,
    level_number: u8,
    depth: u32,
) -> Result<Expr, Stop>
    ensures { Gives tree terminals.new.items result
        (level_at (primary_at depth) level_number terminals.old.items) }
{
    match level_number.checked_sub(1) {
        None => primary(alloc, terminals, depth),
        Some(below) => chain(alloc, terminals, below, depth),
    }
}

// Operands of a level, joined.
#[cycle(expressions)]
#[tactic(auto, unfolding(crate::specs::ReadsExpressions::joined_at))]
fn chain(
    alloc: Global,
    terminals: &mut VecDeque<Terminal>,
    below: u8,
    depth: u32,
) -> Result<Expr, Stop>
    ensures { Gives tree terminals.new.items result
        (joined_at (level_at (primary_at depth) below) below terminals.old.items) }
{
    let first = level(alloc, terminals, below, depth)?;
    let Some(operator) = operator_at(terminals, below) else {
        return Ok(first);
    };
    take(terminals);
    let second = level(alloc, terminals, below, depth)?;
    let more = operands(alloc, terminals, below, depth)?;
    join(alloc, first, operator, second, more)
}

// Further operands of a level, each with the operator before it.
#[cycle(expressions)]
fn operands(
    alloc: Global,
    terminals: &mut VecDeque<Terminal>,
    below: u8,
    depth: u32,
) -> Result<Vec<Operand>, Stop>
    ensures { Gives (λ v. tail v.items) terminals.new.items result
        (tail_at (level_at (primary_at depth) below) below terminals.old.items) }
{
    let mut operands = Vec::new(alloc);
    while let Some(operator) = operator_at(terminals, below) {
        take(terminals);
        let expr = level(alloc, terminals, below, depth)?;
        operands.push(Operand { operator, expr })?;
    }
    Ok(operands)
}

// Two operands of one level and further ones, joined.
fn join(
    alloc: Global,
    first: Expr,
    operator: Operator,
    second: Expr,
    more: Vec<Operand>,
) -> Result<Expr, Stop>
    ensures found { IfOk result
        (λ e. tree e ≡ joined (tree first) operator (tree second) (tail more.items)) }
    ensures failed { IfErr result (λ e. e ≡ Stop.NoMemory) }
{
    let first = Box::new(alloc, first)?;
    let second = Box::new(alloc, second)?;
    Ok(Expr::Joined(first, operator, second, more))
}

// A primary in which nothing nests deeper.
#[cycle(expressions)]
fn primary(alloc: Global, terminals: &mut VecDeque<Terminal>, depth: u32) -> Result<Expr, Stop>
    ensures { Gives tree terminals.new.items result (primary_at depth terminals.old.items) }
{
    let left = terminals.len();
    let Some(front) = take(terminals) else {
        return Err(Stop::Bad(left, Wanted::Primary));
    };
    primary_from(alloc, front, terminals, left, depth)
}

// What a terminal begins as a primary, where it stands before so many.
#[cycle(expressions)]
fn primary_from(
    alloc: Global,
    front: Terminal,
    terminals: &mut VecDeque<Terminal>,
    left: usize,
    depth: u32,
) -> Result<Expr, Stop>
    requires { left ≡ suc (length terminals.old.items) }
    ensures { Gives tree terminals.new.items result
        (primary_at depth (front ∷ terminals.old.items)) }
{
    match front {
        Terminal::Name(name) => Ok(Expr::Net(name)),
        Terminal::Bit(bit) => Ok(Expr::Bit(bit)),
        Terminal::Fixed(mark) => nested(alloc, mark, terminals, left, depth),
        Terminal::GateWord(_) | Terminal::Number | Terminal::Reserved | Terminal::Symbol(_) => {
            Err(Stop::Bad(left, Wanted::Primary))
        }
    }
}

// What a mark begins as a primary, where it stands before so many terminals.
#[cycle(expressions)]
fn nested(
    alloc: Global,
    mark: Mark,
    terminals: &mut VecDeque<Terminal>,
    left: usize,
    depth: u32,
) -> Result<Expr, Stop>
    requires { left ≡ suc (length terminals.old.items) }
    ensures { Gives tree terminals.new.items result
        (primary_at depth (Terminal.Fixed mark ∷ terminals.old.items)) }
{
    match mark {
        Mark::Tilde => inverse(alloc, terminals, left, depth),
        Mark::Open => group(alloc, terminals, left, depth),
        _ => Err(Stop::Bad(left, Wanted::Primary)),
    }
}

// What a `~` negates, where it stands before so many terminals.
#[cycle(expressions)]
fn inverse(
    alloc: Global,
    terminals: &mut VecDeque<Terminal>,
    left: usize,
    depth: u32,
) -> Result<Expr, Stop>
    requires { left ≡ suc (length terminals.old.items) }
    ensures { Gives tree terminals.new.items result (inverse_at depth terminals.old.items) }
{
    let inner = depth.checked_sub(1).ok_or(Stop::Deep(left))?;
    let expr = primary(alloc, terminals, inner)?;
    Ok(Expr::Not(Box::new(alloc, expr)?))
}

// What stands behind a `(`, where this stands before so many terminals.
#[cycle(expressions)]
fn group(
    alloc: Global,
    terminals: &mut VecDeque<Terminal>,
    left: usize,
    depth: u32,
) -> Result<Expr, Stop>
    requires { left ≡ suc (length terminals.old.items) }
    ensures { Gives tree terminals.new.items result (group_at depth terminals.old.items) }
{
    let inner = depth.checked_sub(1).ok_or(Stop::Deep(left))?;
    let expr = level(alloc, terminals, EXPRESSION, inner)?;
    expect(terminals, Mark::Close)?;
    Ok(Expr::Group(Box::new(alloc, expr)?))
}
