//! The front of a list of terminals: the one that stands there, looked at or taken.
ghost use Rattle.std.specs.Prelude.{◌≡◌, [], ◌∷◌, drop, IfSome, IfNone};
ghost use Rattle.bx_syntax.specs.ReadsExpressions.{behind, operator_of, operator_at};
ghost use Rattle.bx_syntax.specs.Expressions.{rank};
ghost use Rattle.bx_syntax.specs.Gives.{Gives, GivesRest};
ghost use Rattle.bx_syntax.specs.ReadsModules.{next_is, past, past_name, name_at};

use crate::stop::{Stop, Wanted};
use crate::terminal::{Mark, Terminal};
use crate::tree::Operator;
use bx_logic::Name;
use std::collections::VecDeque;

// Takes the terminal at the front.
pub(crate) fn take(terminals: &mut VecDeque<Terminal>) -> Option<Terminal>
    ensures taken { IfSome result (λ t. terminals.old.items ≡ t ∷ terminals.new.items) }
    ensures none { IfNone result (terminals.old.items ≡ []) }
    ensures rest { terminals.new.items ≡ drop 1 terminals.old.items }
{
    terminals.pop_front()
}

// Takes a mark from the front.
pub(crate) fn expect(terminals: &mut VecDeque<Terminal>, mark: Mark) -> Result<(), Stop>
    ensures { GivesRest terminals.new.items result (behind mark terminals.old.items) }
{
    let left = terminals.len();
    match terminals.pop_front() {
        Some(Terminal::Fixed(found)) if found == mark => Ok(()),
        _ => Err(Stop::Bad(left, Wanted::Other)),
    }
}

// Whether a mark stands at the front.
pub(crate) fn next_is(terminals: &VecDeque<Terminal>, mark: Mark) -> bool
    ensures { result ≡ next_is mark terminals.now.items }
{
    matches!(terminals.front(), Some(Terminal::Fixed(found)) if *found == mark)
}

// Takes a mark from the front, if it stands there.
pub(crate) fn skip(terminals: &mut VecDeque<Terminal>, mark: Mark)
    ensures { terminals.new.items ≡ past mark terminals.old.items }
{
    if next_is(terminals, mark) {
        take(terminals);
    }
}

// Takes a name from the front, if one stands there.
pub(crate) fn skip_name(terminals: &mut VecDeque<Terminal>)
    ensures { terminals.new.items ≡ past_name terminals.old.items }
{
    if let Some(Terminal::Name(_)) = terminals.front() {
        take(terminals);
    }
}

// Takes a name from the front.
pub(crate) fn name(terminals: &mut VecDeque<Terminal>) -> Result<Name, Stop>
    ensures { Gives (λ n. n) terminals.new.items result (name_at terminals.old.items) }
{
    let left = terminals.len();
    match terminals.pop_front() {
        Some(Terminal::Name(name)) => Ok(name),
        _ => Err(Stop::Bad(left, Wanted::Other)),
    }
}

// The operator at the front, if it stands between operands of this level.
pub(crate) fn operator_at(terminals: &VecDeque<Terminal>, level: u8) -> Option<Operator>
    ensures { result ≡ operator_at level terminals.now.items }
{
    let Terminal::Fixed(mark) = terminals.front()? else {
        return None;
    };
    let operator = operator_of(*mark)?;
    (rank(operator) == level).then_some(operator)
}

// The operator that a mark is.
fn operator_of(mark: Mark) -> Option<Operator>
    ensures { result ≡ operator_of mark }
{
    match mark {
        Mark::Ampersand => Some(Operator::And),
        Mark::Caret => Some(Operator::Xor),
        Mark::TildeCaret => Some(Operator::Xnor),
        Mark::Bar => Some(Operator::Or),
        _ => None,
    }
}

// The level of the operands between which an operator stands.
fn rank(operator: Operator) -> u8
    ensures { result ≡ rank operator }
{
    match operator {
        Operator::And => 0,
        Operator::Xor | Operator::Xnor => 1,
        Operator::Or => 2,
    }
}
