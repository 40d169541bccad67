//! Reading one line of a certificate but for those of steps. Each kind of line is a word and numbers, each
//! behind one space; what stands at the front is told by trying one kind after the other, of which one at
//! most fits.
ghost use Rattle.std.specs.Prelude.{◌≡◌, ◌≤◌, ◌<◌, ◌↔◌, ℕ, List, ◌++◌, IfSome, IfNone, IsTrue, length};
ghost use Rattle.bx_grid.specs.declared.count.CountProof.{CountProof};
ghost use Rattle.bx_grid.specs.declared.ratio.Ratio.{Ratio};
ghost use Rattle.bx_grid.specs.declared.ratio.Limits.{Limits};
ghost use Rattle.bx_cert.specs.declared.parts.Spot.{Spot};
ghost use Rattle.bx_grid.specs.Orders.{AreLimits, IsRatio};
ghost use Rattle.bx_cert.specs.declared.line.Line.{Line};
ghost use Rattle.bx_cert.specs.Readings.{AreNumbersAt, IsWordedAt, IsCountAt, IsLineAt, IsRareLine};

use crate::line::Line;
use crate::{MOST_CERT_BUDGET, Spot};
use bx_grid::{CountProof, Limits, MOST_LIMIT, Ratio};
use bx_lines::number_at;

// The greatest of the numbers.
const MAX_NUMBER: u64 = 4_294_967_295;

// The most steps that can follow: ids go from 2 to 4,294,967,295.
const MOST_STEPS: u32 = 4_294_967_294;

/// The line at the front of a text, and what stands behind it, or none where no line but for those of steps
/// stands there.
pub(crate) fn line_at(text: &[u8]) -> Option<(Line, &[u8])>
    ensures found { IfSome result (λ found. IsLineAt text.now found.0 found.1.now) }
    ensures none { IfNone result ((line : Line) (rest : List ℕ) → IsLineAt text.now line rest → ⊥) }
{
    if let Some(found) = counted_at(text) {
        return Some(found);
    }
    if let Some(found) = run_at(text) {
        return Some(found);
    }
    if let Some(found) = place_at(text) {
        return Some(found);
    }
    rare_line_at(text)
}

// Likewise, of the lines of which there is one at most.
fn rare_line_at(text: &[u8]) -> Option<(Line, &[u8])>
    ensures found { IfSome result (λ found. IsLineAt text.now found.0 found.1.now) }
    ensures none { IfNone result
        ((line : Line) (rest : List ℕ) → IsRareLine line → IsLineAt text.now line rest → ⊥) }
{
    if let Some(found) = bounds_at(text) {
        return Some(found);
    }
    if let Some(found) = found_at(text) {
        return Some(found);
    }
    if let Some(found) = gave_up_at(text) {
        return Some(found);
    }
    if let Some(rest) = behind(text, b"bestagon cert 1\n") {
        return Some((Line::Head, rest));
    }
    if let Some(rest) = behind(text, b"none\n") {
        return Some((Line::NoRatio, rest));
    }
    let rest = behind(text, b"end\n")?;
    Some((Line::End, rest))
}

// The line `limits ..`.
fn bounds_at(text: &[u8]) -> Option<(Line, &[u8])>
    ensures found { IfSome result (λ found. IsLineAt text.now found.0 found.1.now) }
    ensures none { IfNone result
        ((limits : Limits) (budget : ℕ) (rest : List ℕ)
        → IsLineAt text.now (Line.Bounds limits budget) rest → ⊥) }
{
    let mut numbers = [0; 4];
    let rest = worded_at(text, b"limits", &mut numbers)?;
    let limits = Limits {
        area: numbers[0],
        width: numbers[1],
        height: numbers[2],
    };
    let budget = u64::from(numbers[3]);
    if !are_limits(limits) {
        return None;
    }
    if !is_budget(budget) {
        return None;
    }
    Some((Line::Bounds(limits, budget), rest))
}

// The line `count ..`.
fn counted_at(text: &[u8]) -> Option<(Line, &[u8])>
    ensures found { IfSome result (λ found. IsLineAt text.now found.0 found.1.now) }
    ensures none { IfNone result
        ((ratio : Ratio) (proof : CountProof) (rest : List ℕ)
        → IsLineAt text.now (Line.Counted ratio proof) rest → ⊥) }
{
    let mut sides = [0; 2];
    let rest = numbers_at(behind(text, b"count")?, &mut sides)?;
    let ratio = Ratio {
        w: sides[0],
        h: sides[1],
    };
    if !is_ratio(ratio) {
        return None;
    }
    let (proof, rest) = count_at(rest)?;
    Some((Line::Counted(ratio, proof), rest))
}

// The rest of such a line: which count, and its numbers.
fn count_at(text: &[u8]) -> Option<(CountProof, &[u8])>
    ensures found { IfSome result (λ found. IsCountAt text.now found.0 found.1.now) }
    ensures none { IfNone result
        ((proof : CountProof) (rest : List ℕ) → IsCountAt text.now proof rest → ⊥) }
{
    let mut one = [0; 1];
    if let Some(rest) = worded_at(text, b" late", &mut one) {
        return Some((CountProof::Late { node: one[0] }, rest));
    }
    if let Some(rest) = worded_at(text, b" cut", &mut one) {
        return Some((CountProof::Cut { row: one[0] }, rest));
    }
    let mut two = [0; 2];
    if let Some(rest) = worded_at(text, b" crowd", &mut two) {
        let (first, last) = (two[0], two[1]);
        return Some((CountProof::Crowd { first, last }, rest));
    }
    let rest = worded_at(text, b" pair", &mut two)?;
    let (one, two) = (two[0], two[1]);
    Some((CountProof::Pair { one, two }, rest))
}

// The line `clauses ..`.
fn run_at(text: &[u8]) -> Option<(Line, &[u8])>
    ensures found { IfSome result (λ found. IsLineAt text.now found.0 found.1.now) }
    ensures none { IfNone result
        ((ratio : Ratio) (count : ℕ) (rest : List ℕ) → IsLineAt text.now (Line.Run ratio count) rest
        → ⊥) }
{
    let mut numbers = [0; 3];
    let rest = worded_at(text, b"clauses", &mut numbers)?;
    let ratio = Ratio {
        w: numbers[0],
        h: numbers[1],
    };
    let count = numbers[2];
    if !is_ratio(ratio) {
        return None;
    }
    if !is_count(count) {
        return None;
    }
    Some((Line::Run(ratio, count), rest))
}

// The line `found ..`.
fn found_at(text: &[u8]) -> Option<(Line, &[u8])>
    ensures found { IfSome result (λ found. IsLineAt text.now found.0 found.1.now) }
    ensures none { IfNone result
        ((ratio : Ratio) (rest : List ℕ) → IsLineAt text.now (Line.FoundAt ratio) rest → ⊥) }
{
    let mut numbers = [0; 2];
    let rest = worded_at(text, b"found", &mut numbers)?;
    let ratio = Ratio {
        w: numbers[0],
        h: numbers[1],
    };
    if is_ratio(ratio) {
        Some((Line::FoundAt(ratio), rest))
    } else {
        None
    }
}

// The line `undecided ..`.
fn gave_up_at(text: &[u8]) -> Option<(Line, &[u8])>
    ensures found { IfSome result (λ found. IsLineAt text.now found.0 found.1.now) }
    ensures none { IfNone result
        ((ratio : Ratio) (spent : ℕ) (rest : List ℕ)
        → IsLineAt text.now (Line.GaveUp ratio spent) rest → ⊥) }
{
    let mut numbers = [0; 3];
    let rest = worded_at(text, b"undecided", &mut numbers)?;
    let ratio = Ratio {
        w: numbers[0],
        h: numbers[1],
    };
    if is_ratio(ratio) {
        Some((Line::GaveUp(ratio, u64::from(numbers[2])), rest))
    } else {
        None
    }
}

// The line `place ..`.
fn place_at(text: &[u8]) -> Option<(Line, &[u8])>
    ensures found { IfSome result (λ found. IsLineAt text.now found.0 found.1.now) }
    ensures none { IfNone result
        ((spot : Spot) (rest : List ℕ) → IsLineAt text.now (Line.Place spot) rest → ⊥) }
{
    let mut numbers = [0; 2];
    let rest = worded_at(text, b"place", &mut numbers)?;
    let spot = Spot {
        x: numbers[0],
        y: numbers[1],
    };
    Some((Line::Place(spot), rest))
}

// Whether each limit is in its range.
fn are_limits(limits: Limits) -> bool
    ensures { IsTrue result ↔ AreLimits limits }
{
    is_side(limits.area) && is_side(limits.width) && is_side(limits.height)
}

// Whether each side is in its range.
fn is_ratio(ratio: Ratio) -> bool
    ensures { IsTrue result ↔ IsRatio ratio }
{
    is_side(ratio.w) && is_side(ratio.h)
}

// Whether a budget is in its range.
fn is_budget(budget: u64) -> bool
    ensures { IsTrue result ↔ (budget ≤ 67108864) }
{
    budget <= MOST_CERT_BUDGET
}

// Whether so many steps can follow.
fn is_count(count: u32) -> bool
    ensures { IsTrue result ↔ (1 ≤ count) × (count ≤ MOST_STEPS) }
{
    count >= 1 && count <= MOST_STEPS
}

// Whether a number is from 1 to 144.
fn is_side(n: u32) -> bool
    ensures { IsTrue result ↔ (1 ≤ n) × (n ≤ MOST_LIMIT) }
{
    n >= 1 && n <= MOST_LIMIT
}

// What stands behind a line of a word and as many numbers as there is room for, which are then these
// numbers, or none where no such line stands there.
fn worded_at<'a>(text: &'a [u8], word: &[u8], numbers: &mut [u32]) -> Option<&'a [u8]>
    requires { 0 < length numbers.old }
    ensures found { IfSome result (λ rest. IsWordedAt text.now word.now numbers.new rest.now) }
    ensures none { IfNone result
        ((ns rest : List ℕ) → length ns ≡ length numbers.old → IsWordedAt text.now word.now ns rest
        → ⊥) }
{
    let rest = numbers_at(behind(text, word)?, numbers)?;
    behind(rest, b"\n")
}

// Likewise for the numbers alone, each behind a space.
fn numbers_at<'a>(text: &'a [u8], numbers: &mut [u32]) -> Option<&'a [u8]>
    requires { 0 < length numbers.old }
    ensures found { IfSome result (λ rest. AreNumbersAt text.now numbers.new rest.now) }
    ensures none { IfNone result
        ((ns rest : List ℕ) → length ns ≡ length numbers.old → AreNumbersAt text.now ns rest → ⊥) }
{
    let mut rest = text;
    for number in numbers.iter_mut() {
        let (n, next) = number_at(behind(rest, b" ")?, MAX_NUMBER)?;
        *number = n as u32;
        rest = next;
    }
    Some(rest)
}

// What stands behind a word at the front, or none where it doesn't stand there.
fn behind<'a>(text: &'a [u8], word: &[u8]) -> Option<&'a [u8]>
    ensures found { IfSome result (λ rest. text.now ≡ word.now ++ rest.now) }
    ensures none { IfNone result ((rest : List ℕ) → text.now ≡ word.now ++ rest → ⊥) }
{
    text.strip_prefix(word)
}
