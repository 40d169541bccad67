//! Reading one line of a log. A line is read once, from its front, into vectors that serve for all
//! lines; whether what it says makes a step is asked when it stands there.
ghost use Rattle.std.specs.Prelude.{◌≡◌, ℕ, ◌≤◌, ◌<◌, ◌^◌, List, [], ◌∷◌, IfSome, IfNone, IfOk, MatchOption, decimal};
ghost use Rattle.std.specs.List.{AllByRecursion};
ghost use Rattle.bx_cnf.specs.Literals.{Literal, IsLiteral, literal_of, literal_text};
ghost use Rattle.bx_proof.specs.Steps.{Step};
ghost use Rattle.bx_proof.specs.Readings.{IsSigned, IsSignedAt, IsClosedAt, IsHint, IsStepAt};

use crate::is_step;
use bx_cnf::Lit;
use bx_lines::number_at;
use bx_logic::NoMemory;
use std::alloc::Global;

// The greatest variable.
const MAX_VARIABLE: u64 = 2_147_483_647;

// The greatest id.
const MAX_ID: u64 = 4_294_967_295;

/// The literals and the hints of the line that was read last.
#[derive(Drop)]
pub(crate) struct StepLine {
    pub(crate) literals: Vec<Lit>,
    pub(crate) hints: Vec<u32>,
}

impl StepLine {
    /// No line as yet. Takes no memory.
    pub(crate) fn new(alloc: Global) -> Self {
        StepLine {
            literals: Vec::new(alloc),
            hints: Vec::new(alloc),
        }
    }

    /// Reads the line of a step of this id at the front of a text, and answers what stands behind it,
    /// or none where no such line stands there.
    pub(crate) fn read<'a>(&mut self, text: &'a [u8], id: u64) -> Result<Option<&'a [u8]>, NoMemory>
        ensures { IfOk result (λ found. MatchOption found
            ((step : Step) (rest : List ℕ) → IsStepAt text.now id step rest → ⊥)
            (λ rest. IsStepAt text.now id (record { literals = self.new.literals.items; hints = self.new.hints.items }) rest.now)) }
    {
        let Some((number, rest)) = number_at(text, MAX_ID) else {
            return Ok(None);
        };
        if number != id {
            return Ok(None);
        }
        let Some(rest) = read_literals(rest, &mut self.literals)? else {
            return Ok(None);
        };
        let Some(rest) = read_hints(rest, &mut self.hints)? else {
            return Ok(None);
        };
        if !is_step(id, &self.literals, &self.hints) {
            return Ok(None);
        }
        Ok(behind_byte(rest, b'\n'))
    }
}

// Reads literals up to the 0 that ends them, and answers what stands behind it, or none where no such
// thing stands there.
fn read_literals<'a>(bytes: &'a [u8], literals: &mut Vec<Lit>) -> Result<Option<&'a [u8]>, NoMemory>
    ensures { IfOk result (λ found. MatchOption found
        ((ls : List Literal) (rest : List ℕ) → AllByRecursion IsLiteral ls → IsClosedAt literal_text bytes.now ls rest → ⊥)
        (λ rest. AllByRecursion IsLiteral literals.new.items × IsClosedAt literal_text bytes.now literals.new.items rest.now)) }
{
    literals.clear();
    let mut rest = bytes;
    while let Some(word) = behind_byte(rest, b' ') {
        let Some((number, behind)) = signed_at(word) else {
            return Ok(None);
        };
        let Some(literal) = Lit::from_number(number) else {
            return Ok(Some(behind));
        };
        literals.push(literal)?;
        rest = behind;
    }
    Ok(None)
}

// Reads hints up to the 0 that ends them, likewise.
fn read_hints<'a>(bytes: &'a [u8], hints: &mut Vec<u32>) -> Result<Option<&'a [u8]>, NoMemory>
    ensures { IfOk result (λ found. MatchOption found
        ((hs : List ℕ) (rest : List ℕ) → AllByRecursion IsHint hs → IsClosedAt decimal bytes.now hs rest → ⊥)
        (λ rest. AllByRecursion IsHint hints.new.items × IsClosedAt decimal bytes.now hints.new.items rest.now)) }
{
    hints.clear();
    let mut rest = bytes;
    while let Some(word) = behind_byte(rest, b' ') {
        let Some((hint, behind)) = number_at(word, MAX_ID) else {
            return Ok(None);
        };
        if hint == 0 {
            return Ok(Some(behind));
        }
        hints.push(hint as u32)?;
        rest = behind;
    }
    Ok(None)
}

// The signed number at the front of bytes, and what stands behind it; `-0` is none.
fn signed_at(bytes: &[u8]) -> Option<(i32, &[u8])>
    ensures found { IfSome result
        (λ found. IsSigned (literal_of found.0)
        × IsSignedAt bytes.now (literal_of found.0) found.1.now) }
    ensures none { IfNone result
        ((l : Literal) (rest : List ℕ) → IsSigned l → IsSignedAt bytes.now l rest → ⊥) }
{
    if let Some(digits) = behind_byte(bytes, b'-') {
        let (size, rest) = number_at(digits, MAX_VARIABLE)?;
        return if size == 0 {
            None
        } else {
            Some((-(size as i32), rest))
        };
    }
    let (size, rest) = number_at(bytes, MAX_VARIABLE)?;
    Some((size as i32, rest))
}

// What stands behind a byte at the front, or none where another stands there.
fn behind_byte(bytes: &[u8], byte: u8) -> Option<&[u8]>
    ensures found { IfSome result (λ rest. bytes.now ≡ byte ∷ rest.now) }
    ensures none { IfNone result ((rest : List ℕ) → bytes.now ≡ byte ∷ rest → ⊥) }
{
    match bytes.split_first() {
        Some((first, rest)) if *first == byte => Some(rest),
        _ => None,
    }
}
