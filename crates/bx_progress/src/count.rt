//! The counts of a search: on how many ratios work began and ended, and which it began on last. They are set by the
//! workers and read by the ticker. All orders are sequentially consistent, but no count depends on another, so a line
//! may mix counts of two moments.
ghost use Rattle.bx_grid.specs.Orders.{AreLimits};

use bx_desk::Gate;
use bx_grid::{Limits, Ratio, Ratios};
use std::sync::atomic::{AtomicU64, Ordering};

/// How far a search is.
#[derive(Drop)]
pub struct Progress {
    limits: Limits,
    entered: AtomicU64,
    left: AtomicU64,
    last: AtomicU64,
    ended: AtomicU64,
    pub ghost limits_are: { AreLimits limits },
}

impl Progress {
    /// The progress of a search within limits that hasn't begun.
    pub fn new(limits: Limits) -> Progress
        requires { AreLimits limits }
    {
        Progress {
            limits,
            entered: AtomicU64::new(0),
            left: AtomicU64::new(0),
            last: AtomicU64::new(0),
            ended: AtomicU64::new(0),
        }
    }

    /// Notes that the search has ended.
    pub fn end(&self) {
        self.ended.store(1, Ordering::SeqCst);
    }

    /// Whether it has.
    pub fn has_ended(&self) -> bool {
        self.ended.load(Ordering::SeqCst) != 0
    }

    /// On how many ratios work began, and on how many it ended.
    pub fn counts(&self) -> (u64, u64) {
        let left = self.left.load(Ordering::SeqCst);
        (self.entered.load(Ordering::SeqCst), left)
    }

    /// How many ratios there are.
    pub fn len(&self) -> u64 {
        Ratios::new(self.limits).len()
    }

    /// The ratio on which work began last.
    pub fn last(&self) -> Option<Ratio> {
        let ratios = Ratios::new(self.limits);
        let index = self.last.load(Ordering::SeqCst);
        if index < ratios.len() {
            Some(ratios.at(index))
        } else {
            None
        }
    }
}

impl Gate for Progress {
    fn enter(&self, index: u64) {
        self.last.store(index, Ordering::SeqCst);
        self.entered.fetch_add(1, Ordering::SeqCst);
    }

    fn leave(&self, _index: u64) {
        self.left.fetch_add(1, Ordering::SeqCst);
    }
}
