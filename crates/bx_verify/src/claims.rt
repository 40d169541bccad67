//! What a certificate claims of the order: that its ratios are the first ones.
ghost use Rattle.std.specs.Prelude.{◌≡◌, ◌↔◌, IsTrue, Some, slice_get};
ghost use Rattle.bx_bounds.specs.Numbers.{IsLeast};
ghost use Rattle.bx_grid.specs.Orders.{AreLimits, order};
ghost use Rattle.bx_verify.specs.Failing.{IsOff, named};

use bx_cert::Section;
use bx_grid::{Limits, Ratio, Ratios};

/// The first index at which the ratios that a certificate names, those of its sections and then the found one, aren't
/// those of the order within its limits, or none where they are all. It looks no further than the order goes.
pub(crate) fn first_off(limits: Limits, sections: &[Section], found: Ratio) -> Option<u64>
    requires { AreLimits limits }
    ensures { IsLeast (IsOff (order limits) (named sections.now found)) result }
{
    let ratios = Ratios::new(limits);
    for (k, section) in sections.iter().enumerate() {
        if !is_at(&ratios, k as u64, section.ratio) {
            return Some(k as u64);
        }
    }
    let end = sections.len() as u64;
    if is_at(&ratios, end, found) {
        None
    } else {
        Some(end)
    }
}

// Whether the ratio stands at this index.
fn is_at(ratios: &Ratios, k: u64, ratio: Ratio) -> bool
    ensures { IsTrue result ↔ (slice_get ratios.now k ≡ Some ratio) }
{
    k < ratios.len() && is_same(ratios.at(k), ratio)
}

/// Whether two ratios have the same sides.
pub(crate) fn is_same(one: Ratio, other: Ratio) -> bool
    ensures { IsTrue result ↔ (one ≡ other) }
{
    one.w == other.w && one.h == other.h
}
