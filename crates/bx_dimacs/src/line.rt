//! One line of a proof, as numbers. What they name is left to the reader of the proof.
ghost use Rattle.std.specs.Prelude.{◌≡◌, IfOk, option_map};
ghost use Rattle.bx_dimacs.specs.Words.{words_of};
ghost use Rattle.bx_dimacs.specs.ProofTexts.{line_of, numbers_of, with_literals};

use crate::scan::{behind_word, number_of, signed_of, word_at};
use bx_logic::NoMemory;
use std::alloc::Global;

/// What a line is.
pub(crate) enum Line {
    /// A step with this id.
    Step(u64),
    /// A deletion.
    Deletion,
    /// No line of a proof.
    Bad,
}

/// The literals and the hints of the step that was read last, as they are written.
#[derive(Drop)]
pub(crate) struct StepLine {
    pub(crate) literals: Vec<i64>,
    pub(crate) hints: Vec<i64>,
}

impl StepLine {
    ghost use Rattle.bx_dimacs.specs.StepsShown.{line_found};

    /// No step as yet. Takes no memory.
    pub(crate) fn new(alloc: Global) -> Self {
        StepLine {
            literals: Vec::new(alloc),
            hints: Vec::new(alloc),
        }
    }

    /// Reads a line. Of a deletion only its front is looked at.
    pub(crate) fn read(&mut self, line: &[u8]) -> Result<Line, NoMemory>
        ensures { IfOk result (λ is. line_of (words_of line.now) ≡ line_found self.new is) }
    {
        let Some((word, rest)) = word_at(line) else {
            return Ok(Line::Bad);
        };
        let Some(id) = number_of(word) else {
            return Ok(Line::Bad);
        };
        if behind_word(rest, b"d").is_some() {
            return Ok(Line::Deletion);
        }
        self.read_step(id, rest)
    }

    // Reads what stands behind the id of a step.
    fn read_step(&mut self, id: u64, line: &[u8]) -> Result<Line, NoMemory>
        ensures { IfOk result (λ is. with_literals id (numbers_of (words_of line.now))
            ≡ line_found self.new is) }
    {
        let Some(rest) = read_numbers(line, &mut self.literals)? else {
            return Ok(Line::Bad);
        };
        let Some(rest) = read_numbers(rest, &mut self.hints)? else {
            return Ok(Line::Bad);
        };
        if word_at(rest).is_some() {
            return Ok(Line::Bad);
        }
        Ok(Line::Step(id))
    }
}

// Reads numbers up to the 0 that ends them, and answers what stands behind it, or none where another word
// or the end of the line comes before.
fn read_numbers<'a>(line: &'a [u8], numbers: &mut Vec<i64>) -> Result<Option<&'a [u8]>, NoMemory>
    ensures { IfOk result (λ behind. numbers_of (words_of line.now)
        ≡ option_map (λ rest. (numbers.new.items, words_of rest.now)) behind) }
{
    numbers.clear();
    let mut rest = line;
    while let Some((word, behind)) = word_at(rest) {
        match signed_of(word) {
            None => return Ok(None),
            Some(0) => return Ok(Some(behind)),
            Some(number) => numbers.push(number)?,
        }
        rest = behind;
    }
    Ok(None)
}
