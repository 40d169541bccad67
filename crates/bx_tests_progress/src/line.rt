//! The line that is told, and the counts that it is made of.

use bx_desk::Gate;
use bx_grid::{Limits, Ratio};
use bx_progress::{Progress, line_text};
use std::process::Abort;
use std::test::Fail;

// On how many ratios work began and ended, for how many seconds, and the line behind what wipes the last one.
const LINES: &[(u64, u64, u64, &str)] = &[
    (0, 0, 0, "bestagon: 0 of 482 sizes tried"),
    (
        1,
        0,
        3,
        "bestagon: 0 of 482 sizes tried; now 4 x 8, for 3 s",
    ),
    (
        13,
        9,
        75,
        "bestagon: 9 of 482 sizes tried; now 4 x 8 and 3 more, for 75 s",
    ),
    (482, 482, 1, "bestagon: 482 of 482 sizes tried"),
];

#[test]
fn lines_are_told(rt: HostRuntime) -> Result<(), Fail> {
    for &(entered, left, seconds, wanted) in LINES {
        let at = Some(Ratio { w: 4, h: 8 });
        let line = line_text(rt.alloc(), 482, entered, left, at, seconds)?;
        is_line(&rt, line.as_str(), wanted);
    }
    Ok(())
}

fn is_line(rt: &impl Abort, line: &str, wanted: &str) {
    assert_eq!(rt; line.strip_prefix("\r\x1b[K"), Some(wanted));
}

#[test]
fn work_is_counted(rt: HostRuntime) -> Result<(), Fail> {
    let progress = Progress::new(Limits {
        area: 100,
        width: 144,
        height: 144,
    });
    progress.enter(0);
    progress.enter(3);
    progress.leave(0);
    are_counts(&rt, &progress, (2, 1));
    let ends = (progress.has_ended(), progress.len());
    progress.end();
    are_ends(&rt, ends, progress.has_ended());
    Ok(())
}

fn are_counts(rt: &impl Abort, progress: &Progress, wanted: (u64, u64)) {
    assert_eq!(rt; progress.counts(), wanted);
}

// There are 482 ratios of an area up to 100.
fn are_ends(rt: &impl Abort, before: (bool, u64), after: bool) {
    assert_eq!(rt; before, (false, 482));
    assert!(rt; after);
}
