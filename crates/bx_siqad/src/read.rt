//! Reading a design: one line after another from the front, and no copy of the text.
ghost use Rattle.std.specs.Prelude.{◌≡◌, ◌≢◌, ◌+◌, ◌<◌, ◌^◌, ◌↔◌, ℕ, List, [], ◌∷◌, ◌++◌, length, map, IfOk, MatchResult, Err, IsTrue};
ghost use Rattle.bx_library.specs.Dots.{IsAscending};
ghost use Rattle.bx_lines.specs.Lines.{text_of, IsFirstBadLine};
ghost use Rattle.bx_siqad.specs.Designs.{Drawing};
ghost use Rattle.bx_siqad.specs.Texts.{IsTextOf, IsDesignText, Reads};
ghost use Rattle.bx_siqad.specs.Readings.{AreDotsAt, IsLineFault, IsDotFault};

use crate::lines::{BACK, FRONT, MIDDLE};
use crate::scan::{behind_line, dot_at, ratio_at};
use crate::{Design, DesignFault};
use bx_library::Dot;
use std::alloc::Global;

// How many lines stand before the sides of the grid, and how many before the first dot.
const LINES_BEFORE_RATIO: u64 = 4;

const LINES_BEFORE_DOTS: u64 = 11;

/// The design whose text this is. Its memory is that of its dots.
///
/// # Errors
///
/// The first bad line, or `NoMemory`.
pub fn read_design(alloc: Global, bytes: &[u8]) -> Result<Design, DesignFault>
    // The design that is answered is that of the text.
    ensures found { IfOk result (λ design. IsTextOf design bytes.now) }
    // Where the text is that of a design it is answered, unless memory runs out.
    ensures only { (drawing : Drawing) → IsTextOf drawing bytes.now
        → MatchResult result (λ answer. answer ≡ drawing) (λ fault. fault ≡ DesignFault.NoMemory) }
    // The line that is answered is the first bad one.
    ensures bad { (k : ℕ) → result ≡ Err (DesignFault.BadDesign k)
        → IsFirstBadLine IsDesignText bytes.now k }
    // Where there is a first bad line it is answered, unless memory runs out.
    ensures exact { (k : ℕ) → IsFirstBadLine IsDesignText bytes.now k
        → result ≢ Err DesignFault.NoMemory → result ≡ Err (DesignFault.BadDesign k) }
{
    read_whole(alloc, bytes)
}

// The design whose text this is.
fn read_whole(alloc: Global, bytes: &[u8]) -> Result<Design, DesignFault>
    ensures { Reads bytes.now result }
{
    let text = behind_lines(bytes, &FRONT, 0)?;
    let Some((ratio, text)) = ratio_at(text) else {
        return Err(DesignFault::BadDesign(LINES_BEFORE_RATIO + 1));
    };
    let text = behind_lines(text, &MIDDLE, LINES_BEFORE_RATIO + 1)?;
    let (dots, text) = read_dots(alloc, text)?;
    let lines = LINES_BEFORE_DOTS + dots.len() as u64;
    let rest = behind_lines(text, &BACK, lines)?;
    if !rest.is_empty() {
        return Err(DesignFault::BadDesign(lines + 4));
    }
    Ok(Design::new(ratio, dots))
}

// What stands behind these lines, where so many lines stand before them.
fn behind_lines<'a>(text: &'a [u8], lines: &[&str], before: u64) -> Result<&'a [u8], DesignFault>
    requires { before + length lines.now < 2 ^ 64 }
    ensures { MatchResult result
        (λ rest. text.now ≡ text_of (map (λ line. line.now) lines.now) ++ rest.now)
        (λ fault. IsLineFault (map (λ line. line.now) lines.now) text.now before fault) }
{
    let mut rest = text;
    let mut number = before;
    for line in lines {
        number += 1;
        let Some(next) = behind_line(rest, line) else {
            return Err(DesignFault::BadDesign(number));
        };
        rest = next;
    }
    Ok(rest)
}

// Reads dots as long as lines of dots stand there, and answers what stands behind them.
fn read_dots(alloc: Global, text: &[u8]) -> Result<(Vec<Dot>, &[u8]), DesignFault>
    ensures { MatchResult result
        (λ read. AreDotsAt text.now read.0.items read.1.now)
        (λ fault. IsDotFault text.now LINES_BEFORE_DOTS fault) }
{
    let mut dots: Vec<Dot> = Vec::new(alloc);
    let mut rest = text;
    while let Some((dot, behind)) = dot_at(rest) {
        if !may_follow(&dots, dot) {
            return Err(DesignFault::BadDesign(LINES_BEFORE_DOTS + dots.len() as u64 + 1));
        }
        dots.push(dot)?;
        rest = behind;
    }
    Ok((dots, rest))
}

// Whether a dot may stand behind these: it stands behind the last of them in the order of dots.
fn may_follow(dots: &[Dot], dot: Dot) -> bool
    requires { IsAscending dots.now }
    ensures { IsTrue result ↔ IsAscending (dots.now ++ dot ∷ []) }
{
    match dots.last() {
        Some(last) => last.is_before(dot),
        None => true,
    }
}
