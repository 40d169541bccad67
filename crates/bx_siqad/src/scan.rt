//! Reading one line of a design. A line is fixed, or has numbers between fixed words.
ghost use Rattle.std.specs.Prelude.{◌≡◌, ◌≤◌, ◌<◌, ◌^◌, ◌↔◌, ℕ, List, ◌++◌, IfSome, IfNone, IsTrue};
ghost use Rattle.bx_grid.specs.declared.ratio.Ratio.{Ratio};
ghost use Rattle.bx_library.specs.declared.dot.Dot.{Dot};
ghost use Rattle.bx_lines.specs.Decimals.{EndsNumber};
ghost use Rattle.bx_lines.specs.Lines.{ended};
ghost use Rattle.bx_siqad.specs.Readings.{IsNumberBehind, IsRatioAt, IsDotAt};

use bx_grid::{MOST_LIMIT, Ratio};
use bx_library::Dot;
use bx_lines::number_at;

// The most that the `n` or the `m` of a design's dot is.
const MOST_PLACE: u32 = 99_999;

/// What stands behind this line, or none where it doesn't stand at the front.
pub(crate) fn behind_line<'a>(text: &'a [u8], line: &str) -> Option<&'a [u8]>
    ensures found { IfSome result (λ rest. text.now ≡ ended line.now ++ rest.now) }
    ensures none { IfNone result ((rest : List ℕ) → text.now ≡ ended line.now ++ rest → ⊥) }
{
    behind(behind(text, line)?, "\n")
}

/// The sides that the line at the front says, and what stands behind it, or none where no line of sides
/// stands there.
pub(crate) fn ratio_at(text: &[u8]) -> Option<(Ratio, &[u8])>
    ensures found { IfSome result (λ found. IsRatioAt text.now found.0 found.1.now) }
    ensures none { IfNone result
        ((ratio : Ratio) (rest : List ℕ) → IsRatioAt text.now ratio rest → ⊥) }
{
    let (w, rest) = number_behind(text, "<created_by>bestagon ", MOST_LIMIT)?;
    let (h, rest) = number_behind(rest, " ", MOST_LIMIT)?;
    let rest = behind(rest, "</created_by>\n")?;
    if w == 0 || h == 0 {
        return None;
    }
    Some((Ratio { w, h }, rest))
}

/// The dot that the line at the front says, and what stands behind it, or none where no line of a dot stands
/// there.
pub(crate) fn dot_at(text: &[u8]) -> Option<(Dot, &[u8])>
    ensures found { IfSome result (λ found. IsDotAt text.now found.0 found.1.now) }
    ensures none { IfNone result ((dot : Dot) (rest : List ℕ) → IsDotAt text.now dot rest → ⊥) }
{
    let (n, rest) = number_behind(text, "<dbdot><latcoord n=\"", MOST_PLACE)?;
    let (m, rest) = number_behind(rest, "\" m=\"", MOST_PLACE)?;
    let (l, rest) = number_behind(rest, "\" l=\"", 1)?;
    let rest = behind(rest, "\"/></dbdot>\n")?;
    let l = l as u8;
    Some((Dot { m, l, n }, rest))
}

// The number of at most `limit` behind a word at the front, and what stands behind it, or none where no such
// number stands there.
fn number_behind<'a>(text: &'a [u8], word: &str, limit: u32) -> Option<(u32, &'a [u8])>
    ensures small { IfSome result (λ found. found.0 ≤ limit) }
    ensures found { IfSome result (λ found. IsNumberBehind text.now word.now found.0 found.1.now) }
    ensures none { IfNone result
        ((n : ℕ) (rest : List ℕ) → n ≤ limit → IsNumberBehind text.now word.now n rest → ⊥) }
{
    let (n, rest) = number_at(behind(text, word)?, u64::from(limit))?;
    Some((n as u32, rest))
}

// What stands behind a word at the front, or none where it doesn't stand there.
fn behind<'a>(text: &'a [u8], word: &str) -> Option<&'a [u8]>
    ensures found { IfSome result (λ rest. text.now ≡ word.now ++ rest.now) }
    ensures none { IfNone result ((rest : List ℕ) → text.now ≡ word.now ++ rest → ⊥) }
{
    text.strip_prefix(word.as_bytes())
}
