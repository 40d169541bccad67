//! Decimal numbers at the front of bytes. A number has one spelling: no leading zeros, and no sign.
ghost use Rattle.std.specs.Prelude.{ℕ, ◌≤◌, ◌<◌, ◌^◌, List, IfSome, IfNone};
ghost use Rattle.bx_lines.specs.Decimals.{IsNumberAt};

/// The number at the front of bytes, and what stands behind it: all the digits that stand there belong
/// to the number. None where no number of at most `limit` stands there.
pub fn number_at(bytes: &[u8], limit: u64) -> Option<(u64, &[u8])>
    requires { limit < 2 ^ 32 }
    ensures found { IfSome result
        (λ found. (found.0 ≤ limit) × IsNumberAt bytes.now found.0 found.1.now) }
    ensures none { IfNone result
        ((n : ℕ) (rest : List ℕ) → n ≤ limit → IsNumberAt bytes.now n rest → ⊥) }
{
    let (first, mut rest) = bytes.split_first()?;
    if !first.is_ascii_digit() {
        return None;
    }
    let mut n = u64::from(*first - b'0');
    while n <= limit {
        let Some((next, behind)) = rest.split_first() else {
            return Some((n, rest));
        };
        if !next.is_ascii_digit() {
            return Some((n, rest));
        }
        if n == 0 {
            return None;
        }
        n = 10 * n + u64::from(*next - b'0');
        rest = behind;
    }
    None
}
