//! The reader of a module's items.
ghost use Rattle.std.specs.Prelude.{◌≡◌, suc, ◌∷◌, length};
ghost use Rattle.bx_syntax.specs.Parts.{part, parts};
ghost use Rattle.bx_syntax.specs.ReadsModules.{comma_step, more_at, part_at, kind_of, kind_at, item_at, item_next, items_at};
ghost use Rattle.bx_syntax.specs.Gives.{Gives, GivesList};

use crate::expression::DEEPEST;
use crate::lookahead::{expect, next_is, skip, take};
use crate::part::{Kind, part};
use crate::stop::{Stop, Wanted};
use crate::terminal::{Mark, Terminal};
use crate::tree::{Direction, Part};
use std::alloc::Global;
use std::collections::VecDeque;

// The items of a module.
pub(crate) fn items(
    alloc: Global,
    terminals: &mut VecDeque<Terminal>,
) -> Result<Vec<Vec<Part>>, Stop>
    ensures { GivesList parts terminals.new.items result (items_at DEEPEST terminals.old.items) }
{
    let mut items = Vec::new(alloc);
    'more: while item_next(terminals) {
        let item = item(alloc, terminals)?;
        items.push(item)?;
    }
    Ok(items)
}

// Whether one more item is to be read: something stands there, and it isn't `endmodule`.
fn item_next(terminals: &VecDeque<Terminal>) -> bool
    ensures { result ≡ item_next tt terminals.now.items }
{
    !terminals.is_empty() && !next_is(terminals, Mark::EndModule)
}

// An item, as the list of its parts.
#[tactic(auto, unfolding(crate::specs::ReadsModules::item_at))]
fn item(alloc: Global, terminals: &mut VecDeque<Terminal>) -> Result<Vec<Part>, Stop>
    ensures { Gives parts terminals.new.items result (item_at DEEPEST terminals.old.items) }
{
    let kind = kind(terminals)?;
    let first = part(alloc, terminals, kind)?;
    let parts = more_parts(alloc, terminals, kind, first)?;
    expect(terminals, Mark::Semicolon)?;
    Ok(parts)
}

// The parts of an item, of which the first is read.
fn more_parts(
    alloc: Global,
    terminals: &mut VecDeque<Terminal>,
    kind: Kind,
    first: Part,
) -> Result<Vec<Part>, Stop>
    ensures { GivesList part terminals.new.items result
        (more_at (part_at DEEPEST kind) (part first) terminals.old.items) }
{
    let mut parts = vec![in alloc; first]?;
    'more: while next_is(terminals, Mark::Comma) {
        let part = next_part(alloc, terminals, kind)?;
        parts.push(part)?;
    }
    Ok(parts)
}

// A part behind a comma.
fn next_part(alloc: Global, terminals: &mut VecDeque<Terminal>, kind: Kind) -> Result<Part, Stop>
    ensures { Gives (λ p. (part p, tt)) terminals.new.items result
        (comma_step (part_at DEEPEST kind) tt terminals.old.items) }
{
    expect(terminals, Mark::Comma)?;
    part(alloc, terminals, kind)
}

// The kind of the next item, by its first word.
fn kind(terminals: &mut VecDeque<Terminal>) -> Result<Kind, Stop>
    ensures { Gives (λ k. k) terminals.new.items result (kind_at terminals.old.items) }
{
    let left = terminals.len();
    let Some(front) = take(terminals) else {
        return Err(Stop::Bad(left, Wanted::Item));
    };
    kind_from(terminals, front, left)
}

// The kind of item that a terminal begins, where it stands before so many.
fn kind_from(terminals: &mut VecDeque<Terminal>, front: Terminal, left: usize) -> Result<Kind, Stop>
    requires { left ≡ suc (length terminals.old.items) }
    ensures { Gives (λ k. k) terminals.new.items result (kind_at (front ∷ terminals.old.items)) }
{
    match front {
        Terminal::GateWord(op) => Ok(Kind::Gate(op)),
        Terminal::Fixed(mark) => kind_at_mark(terminals, mark, left),
        _ => Err(Stop::Bad(left, Wanted::Item)),
    }
}

// The kind of item that a mark begins, where it stands before so many terminals.
fn kind_at_mark(terminals: &mut VecDeque<Terminal>, mark: Mark, left: usize) -> Result<Kind, Stop>
    requires { left ≡ suc (length terminals.old.items) }
    ensures { Gives (λ k. k) terminals.new.items result
        (kind_at (Terminal.Fixed mark ∷ terminals.old.items)) }
{
    let Some(kind) = kind_of(mark) else {
        return Err(Stop::Bad(left, Wanted::Item));
    };
    if let Kind::Declaration(_) = kind {
        skip(terminals, Mark::Wire);
    }
    Ok(kind)
}

// The kind of item that a word begins.
fn kind_of(mark: Mark) -> Option<Kind>
    ensures { result ≡ kind_of mark }
{
    match mark {
        Mark::Input => Some(Kind::Declaration(Direction::Input)),
        Mark::Output => Some(Kind::Declaration(Direction::Output)),
        Mark::Wire => Some(Kind::Wire),
        Mark::Assign => Some(Kind::Assign),
        _ => None,
    }
}
