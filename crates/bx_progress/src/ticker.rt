//! The ticker: a bounded number of short sleeps, after which a changed line is told. A run that ends in the first half
//! second tells nothing, and none is held up by more than one sleep. That nothing can be told, or no time be had, ends
//! the telling and not the search.

use crate::count::Progress;
use crate::line::{WIPE, line_text};
use std::alloc::Global;
use std::rt::Clock;
use std::thread;
use std::time::Duration;

// A sleep in milliseconds, how many of them a second has, how many pass before the first line and between two, and the
// most of a run: a week.
const SLEEP: u64 = 10;

const A_SECOND: u64 = 100;

const QUIET: u64 = 50;

const BETWEEN: u64 = 10;

const MOST: u64 = 60_480_000;

// The counts that were told last, and in which sleep they changed.
#[derive(Clone, Copy)]
struct Seen {
    counts: (u64, u64),
    since: u64,
}

/// Tells of a search on standard error until it has ended, and then wipes what was told.
pub fn tell<R: Eprint + Clock>(rt: &R, alloc: Global, progress: &Progress) {
    let mut seen = Seen {
        counts: (0, 0),
        since: 0,
    };
    let mut has_told = false;
    for tick in 0..MOST {
        if progress.has_ended() {
            break;
        }
        thread::sleep(rt, Duration::from_millis(SLEEP));
        if QUIET <= tick && tick % BETWEEN == 0 {
            seen = seen_at(progress, seen, tick);
            has_told = tell_line(rt, alloc, progress, seen, tick) || has_told;
        }
    }
    if has_told {
        let _wiped = eprint!(rt; "{WIPE}");
    }
}

// The counts as they are, and since when.
fn seen_at(progress: &Progress, seen: Seen, tick: u64) -> Seen {
    let counts = progress.counts();
    if counts == seen.counts {
        return seen;
    }
    Seen {
        counts,
        since: tick,
    }
}

// Tells the line of this sleep, and whether it could.
fn tell_line<R: Eprint>(rt: &R, alloc: Global, progress: &Progress, seen: Seen, tick: u64) -> bool {
    let (entered, left) = seen.counts;
    let seconds = tick.saturating_sub(seen.since) / A_SECOND;
    let line = line_text(
        alloc,
        progress.len(),
        entered,
        left,
        progress.last(),
        seconds,
    );
    match line {
        Ok(line) => eprint!(rt; "{line}").is_ok(),
        Err(_) => false,
    }
}
