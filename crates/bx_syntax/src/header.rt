//! The reader of a module's header: its ports, in their order.
ghost use Rattle.std.specs.Prelude.{◌≡◌, suc, ◌∷◌, length, None};
ghost use Rattle.bx_syntax.specs.ReadsModules.{direction_of, port_behind, port_at, comma_port, more_ports_at, ports_at, header_at};
ghost use Rattle.bx_syntax.specs.Gives.{Gives, GivesSome};

use crate::lookahead::{expect, name, next_is, skip, take};
use crate::stop::{Stop, Wanted};
use crate::terminal::{Mark, Terminal};
use crate::tree::{Direction, Port};
use std::alloc::Global;
use std::collections::VecDeque;

// The header behind a module's name. One without parentheses has no ports, as one with nothing in
// them.
#[tactic(auto, unfolding(crate::specs::ReadsModules::header_at))]
pub(crate) fn header(alloc: Global, terminals: &mut VecDeque<Terminal>) -> Result<Vec<Port>, Stop>
    ensures { Gives (λ v. v.items) terminals.new.items result (header_at terminals.old.items) }
{
    if !next_is(terminals, Mark::Open) {
        return Ok(Vec::new(alloc));
    }
    expect(terminals, Mark::Open)?;
    if next_is(terminals, Mark::Close) {
        expect(terminals, Mark::Close)?;
        return Ok(Vec::new(alloc));
    }
    let ports = ports(alloc, terminals)?;
    expect(terminals, Mark::Close)?;
    Ok(ports)
}

// The ports of a header, of which there is at least one.
#[tactic(auto, unfolding(crate::specs::ReadsModules::ports_at))]
fn ports(alloc: Global, terminals: &mut VecDeque<Terminal>) -> Result<Vec<Port>, Stop>
    ensures { Gives (λ v. v.items) terminals.new.items result (ports_at terminals.old.items) }
{
    let first = port(terminals, true, None)?;
    let ports = more_ports(alloc, terminals, first)?;
    Ok(ports)
}

// The ports behind the first one.
fn more_ports(
    alloc: Global,
    terminals: &mut VecDeque<Terminal>,
    first: Port,
) -> Result<Vec<Port>, Stop>
    ensures { GivesSome (λ v. v.items) terminals.new.items result
        (more_ports_at first terminals.old.items) }
{
    let mut direction = first.direction;
    let mut ports = vec![in alloc; first]?;
    'more: while next_is(terminals, Mark::Comma) {
        let port = next_port(terminals, direction)?;
        direction = port.direction;
        ports.push(port)?;
    }
    Ok(ports)
}

// A port behind another one of this direction.
fn next_port(terminals: &mut VecDeque<Terminal>, direction: Option<Direction>) -> Result<Port, Stop>
    ensures { Gives (λ p. (p, p.direction)) terminals.new.items result
        (comma_port direction terminals.old.items) }
{
    expect(terminals, Mark::Comma)?;
    port(terminals, direction.is_some(), direction)
}

// A port.
fn port(
    terminals: &mut VecDeque<Terminal>,
    words: bool,
    direction: Option<Direction>,
) -> Result<Port, Stop>
    ensures { Gives (λ p. p) terminals.new.items result
        (port_at words direction terminals.old.items) }
{
    let left = terminals.len();
    let Some(front) = take(terminals) else {
        return Err(Stop::Bad(left, Wanted::Other));
    };
    port_from(terminals, front, left, words, direction)
}

// A port that a terminal begins, where it stands before so many. A name alone has the direction of
// the port before it; a word of direction may stand here only where this is so.
fn port_from(
    terminals: &mut VecDeque<Terminal>,
    front: Terminal,
    left: usize,
    words: bool,
    direction: Option<Direction>,
) -> Result<Port, Stop>
    requires { left ≡ suc (length terminals.old.items) }
    ensures { Gives (λ p. p) terminals.new.items result
        (port_at words direction (front ∷ terminals.old.items)) }
{
    match front {
        Terminal::Name(name) => Ok(Port { name, direction }),
        Terminal::Fixed(mark) if words => match direction_of(mark) {
            Some(direction) => port_behind(terminals, direction),
            None => Err(Stop::Bad(left, Wanted::Other)),
        },
        _ => Err(Stop::Bad(left, Wanted::Other)),
    }
}

// A port, behind the word of its direction.
fn port_behind(terminals: &mut VecDeque<Terminal>, direction: Direction) -> Result<Port, Stop>
    ensures { Gives (λ p. p) terminals.new.items result
        (port_behind direction terminals.old.items) }
{
    skip(terminals, Mark::Wire);
    let name = name(terminals)?;
    Ok(Port {
        name,
        direction: Some(direction),
    })
}

// The direction that a word gives.
fn direction_of(mark: Mark) -> Option<Direction>
    ensures { result ≡ direction_of mark }
{
    match mark {
        Mark::Input => Some(Direction::Input),
        Mark::Output => Some(Direction::Output),
        _ => None,
    }
}
