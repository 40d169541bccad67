//! Writing a log: each step's line through a printer, without memory.
ghost use Rattle.std.specs.Prelude.{◌≡◌, ◌<◌, ◌∷◌, ◌++◌, length, flat_map, decimal};
ghost use Rattle.bx_cnf.specs.Literals.{literal_text};
ghost use Rattle.bx_desk.specs.Desk.{CanPut};
ghost use Rattle.bx_desk.specs.Pieces.{target_of, PutsOut};
ghost use Rattle.bx_desk.specs.Printing.{Prints};
ghost use Rattle.bx_lines.specs.Lines.{ended};
ghost use Rattle.bx_proof.specs.Steps.{AreSteps};
ghost use Rattle.bx_proof.specs.Texts.{IsTextOf, step_line, log_text};

use crate::Steps;
use bx_cnf::Lit;
use bx_desk::{Desk, Failed, Piece, Printer, Word};

/// Puts out the text of steps, of which there is one at least. Takes no memory.
///
/// # Errors
///
/// `Failed` where the desk could not take all of a full buffer.
pub fn write_steps<D: Desk>(steps: &Steps, piece: &mut Piece, desk: &mut D) -> Result<(), Failed>
    requires can { CanPut (target_of piece.old) (D.state desk.old) }
    requires some { 0 < length steps.now.steps }
    ensures puts_out { PutsOut (D.state desk.old) (D.state desk.new) result piece.old piece.new
        (log_text steps.now) }
    // That is the text of these steps.
    ensures text { IsTextOf steps.now (log_text steps.now) }
{
    let mut printer = Printer::new(piece, desk);
    print_steps(steps, &mut printer);
    printer.outcome()
}

/// Likewise, through a printer.
pub fn print_steps<D: Desk>(steps: &Steps, printer: &mut Printer<D>)
    ensures prints { Prints printer.old printer.new (log_text steps.now) }
    ensures formed { AreSteps steps.now.first steps.now.steps }
{
    for k in 0..steps.len() {
        let id = u64::from(steps.first()) + u64::from(k);
        print_step(id, steps.literals(k), steps.hints(k), printer);
    }
}

// The line of a step.
fn print_step<D: Desk>(id: u64, literals: &[Lit], hints: &[u32], printer: &mut Printer<D>)
    ensures { Prints printer.old printer.new
        (ended (step_line id (record { literals = literals.now; hints = hints.now }))) }
{
    printer.number(id);
    print_literals(literals, printer);
    printer.bytes(b" 0");
    print_hints(hints, printer);
    printer.bytes(b" 0\n");
}

// Literals, each behind a space.
fn print_literals<D: Desk>(literals: &[Lit], printer: &mut Printer<D>)
    ensures { Prints printer.old printer.new (flat_map (λ l. 32 ∷ literal_text l) literals.now) }
{
    for literal in literals {
        print_literal(*literal, printer);
    }
}

// A literal behind a space.
fn print_literal<D: Desk>(literal: Lit, printer: &mut Printer<D>)
    ensures { Prints printer.old printer.new (32 ∷ literal_text literal) }
{
    printer.bytes(front_of(literal));
    printer.number(u64::from(literal.var()));
}

// What stands in front of a literal's variable: a space, and the sign of a negation.
fn front_of(literal: Lit) -> &'static [u8]
    ensures { result.now ++ decimal literal.var ≡ 32 ∷ literal_text literal }
{
    if literal.is_positive() { b" " } else { b" -" }
}

// Hints, each behind a space.
fn print_hints<D: Desk>(hints: &[u32], printer: &mut Printer<D>)
    ensures { Prints printer.old printer.new (flat_map (λ h. 32 ∷ decimal h) hints.now) }
{
    for hint in hints {
        printer.further(Word::Number(u64::from(*hint)));
    }
}
