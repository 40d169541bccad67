//! The line that is told of a search.

use bx_grid::Ratio;
use std::alloc::{AllocError, Global};

/// What wipes the line: back to its start, and nothing behind it (ECMA-48's EL).
pub const WIPE: &str = "\r\x1b[K";

/// The line of a search of so many ratios, of which work began on some and ended on some, and began last on this one;
/// and for how many seconds these counts have stood. It begins with what wipes the line before it, and has no end.
///
/// # Errors
///
/// `AllocError` if memory is refused for the text.
pub fn line_text(
    alloc: Global,
    total: u64,
    entered: u64,
    left: u64,
    last: Option<Ratio>,
    seconds: u64,
) -> Result<String, AllocError> {
    let at_work = entered.saturating_sub(left);
    match last {
        Some(ratio) if at_work > 1 => format!(in alloc;
            "{WIPE}bestagon: {left} of {total} sizes tried; now {} x {} and {} more, for {seconds} s",
            ratio.w,
            ratio.h,
            at_work - 1
        ),
        Some(ratio) if at_work == 1 => format!(in alloc;
            "{WIPE}bestagon: {left} of {total} sizes tried; now {} x {}, for {seconds} s",
            ratio.w, ratio.h
        ),
        _ => format!(in alloc; "{WIPE}bestagon: {left} of {total} sizes tried"),
    }
}
