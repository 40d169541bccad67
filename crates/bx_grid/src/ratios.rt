//! The ratios that are tried within limits, in their order: by area, and ratios of one area by
//! width. The list is never built: a ratio is found by going through the areas and the widths, of
//! which there are some ten thousand pairs at most.
ghost use Rattle.std.specs.Prelude.{◌≡◌, ◌<◌, ◌≤◌, ◌==◌, ◌&&◌, ℕ, List, length, slice_get, Some, IsTrue};
ghost use Rattle.bx_grid.specs.Orders.{AreLimits, IsWithin, divides, of_width as ratio_of_width, fits, of_area, order};

use crate::ratio::{Limits, MOST_LIMIT, Ratio};
use std::marker::Model;

/// Every ratio within given limits, each once, by area and then by width. Contracts see it as this
/// list.
#[derive(Drop)]
pub struct Ratios {
    limits: Limits,
}

impl Model for Ratios {
    ghost use Rattle.std.specs.Prelude.{List};
    ghost use Rattle.bx_grid.specs.declared.ratio.Ratio.{Ratio};
    ghost use Rattle.bx_grid.specs.Orders.{AreLimits, order};

    ghost Value = { List Ratio };

    ghost view = { λ ratios. order ratios.limits };

    ghost invariant = { λ ratios. AreLimits ratios.limits };
}

impl Ratios {
    /// The ratios within these limits. Takes no memory.
    pub fn new(limits: Limits) -> Ratios
        requires { AreLimits limits }
        ensures { result ≡ order limits }
    {
        Ratios { limits }
    }

    /// How many ratios there are.
    pub fn len(&self) -> u64
        ensures { result ≡ length self.now }
    {
        let limits = self.limits;
        let mut count = 0;
        for past in 0..limits.area {
            let more = count_of_area(limits, past + 1);
            count += more;
        }
        count
    }

    /// The ratio at index k, from 0. Takes no memory, and looks at some ten thousand pairs of an
    /// area and a width at most.
    pub fn at(&self, k: u64) -> Ratio
        requires { k < length self.now }
        ensures { slice_get self.now k ≡ Some result }
    {
        let limits = self.limits;
        let mut left = k;
        for past in 0..limits.area {
            let count = count_of_area(limits, past + 1);
            if left < count {
                return nth_of_area(limits, past + 1, left);
            }
            left -= count;
        }
        unreachable!()
    }
}

// How many ratios of this area there are.
fn count_of_area(limits: Limits, area: u32) -> u64
    requires { area ≤ MOST_LIMIT }
    ensures exact { result ≡ length (of_area limits area) }
    ensures bound { result ≤ area }
{
    let mut count = 0;
    for narrower in 0..area {
        if is_tried(limits, area, narrower + 1) {
            count += 1;
        }
    }
    count
}

// The ratio at index k of those of this area.
fn nth_of_area(limits: Limits, area: u32, k: u64) -> Ratio
    requires area { area ≤ MOST_LIMIT }
    requires inside { k < length (of_area limits area) }
    ensures { slice_get (of_area limits area) k ≡ Some result }
{
    let mut left = k;
    for narrower in 0..area {
        let width = narrower + 1;
        if is_tried(limits, area, width) {
            if left == 0 {
                return of_width(area, width);
            }
            left -= 1;
        }
    }
    unreachable!()
}

// Whether there is a ratio of this area and width, and it is within the limits.
fn is_tried(limits: Limits, area: u32, width: u32) -> bool
    requires { 1 ≤ width }
    ensures { result ≡ (divides area width && fits limits (ratio_of_width area width)) }
{
    area % width == 0 && width <= limits.width && area / width <= limits.height
}

// The ratio of this area and width.
fn of_width(area: u32, width: u32) -> Ratio
    requires { 1 ≤ width }
    ensures { result ≡ ratio_of_width area width }
{
    Ratio {
        w: width,
        h: area / width,
    }
}
