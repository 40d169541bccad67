//! When to do what: to begin anew, to give clauses up, to change phases, and to change the way in which
//! the search decides. All of it goes by counts of conflicts, never by time, so that a search is the same
//! on every machine.
//!
//! There are two modes, in turns (after Oh, 2015). In the quick one a restart is due where the clauses of
//! late have more levels than those of all the search (Glucose's averages, after Audemard and Simon,
//! 2009); in the stable one restarts follow Luby's series (Luby, Sinclair and Zuckerman, 1993). Averages
//! are whole numbers, scaled, and a new value moves one by a part that is a power of two.

use crate::assigned::Change;

/// The first turn of each mode takes so many conflicts, the k-th one k times k as many.
const TURN: u64 = 1000;

/// Clauses are given up after so many conflicts, and each time after so many more.
const REDUCE: u64 = 300;

/// Phases are changed after so many conflicts, and each time after so many more.
const REPHASE: u64 = 1000;

/// One unit of Luby's series is so many conflicts.
const LUBY: u64 = 1024;

/// What is counted.
#[derive(Drop)]
pub(crate) struct Pace {
    conflicts: u64,
    // averages of the levels of learned clauses
    fast: u64,
    slow: u64,
    // no restart before so many conflicts
    restart_at: u64,
    // the number of Luby's series that comes next, and how often a run of it began with 1
    luby: u64,
    runs: u64,
    is_stable: bool,
    // when the mode changes, and how often it did
    change_at: u64,
    changes: u64,
    reduce_at: u64,
    reductions: u64,
    rephase_at: u64,
    rephases: u64,
}

impl Pace {
    /// Nothing was counted yet.
    pub(crate) fn new() -> Self {
        Pace {
            conflicts: 0,
            fast: 0,
            slow: 0,
            restart_at: 0,
            luby: 1,
            runs: 1,
            is_stable: false,
            change_at: TURN,
            changes: 0,
            reduce_at: REDUCE,
            reductions: 0,
            rephase_at: REPHASE,
            rephases: 0,
        }
    }

    /// Whether the search is in the stable mode.
    pub(crate) fn is_stable(&self) -> bool {
        self.is_stable
    }

    /// Notes a clause that was learned.
    pub(crate) fn note(&mut self, levels: u32) {
        self.conflicts = self.conflicts.saturating_add(1);
        let size = log2(self.conflicts);
        self.fast = moved(self.fast, levels, size.min(5));
        self.slow = moved(self.slow, levels, size.min(14));
        if self.conflicts >= self.change_at {
            self.change();
        }
    }

    // Changes the mode.
    fn change(&mut self) {
        self.is_stable = !self.is_stable;
        self.changes = self.changes.saturating_add(1);
        let turn = self.changes / 2 + 1;
        let length = TURN.saturating_mul(turn.saturating_mul(turn));
        self.change_at = self.conflicts.saturating_add(length);
        self.luby = 1;
        self.runs = 1;
        self.restart_at = self.conflicts;
    }

    /// Whether a restart is due. If so, it counts as made.
    pub(crate) fn restarts(&mut self) -> bool {
        if self.conflicts < self.restart_at {
            return false;
        }
        if self.is_stable {
            let wait = self.luby.saturating_mul(LUBY);
            self.restart_at = self.conflicts.saturating_add(wait);
            self.step_luby();
            return true;
        }
        self.restart_at = self.conflicts.saturating_add(2);
        self.fast.saturating_mul(10) > self.slow.saturating_mul(11)
    }

    // Goes on in Luby's series, 1 1 2 1 1 2 4: a run doubles from 1, and the k-th one ends at the greatest
    // power of two that divides k (Knuth's reluctant doubling).
    fn step_luby(&mut self) {
        if self.runs & self.runs.wrapping_neg() == self.luby {
            self.runs = self.runs.saturating_add(1);
            self.luby = 1;
        } else {
            self.luby = self.luby.saturating_mul(2);
        }
    }

    /// Whether clauses are to be given up. If so, they count as given up.
    pub(crate) fn reduces(&mut self) -> bool {
        if self.conflicts < self.reduce_at {
            return false;
        }
        self.reductions = self.reductions.saturating_add(1);
        let wait = REDUCE.saturating_mul(self.reductions.saturating_add(1));
        self.reduce_at = self.conflicts.saturating_add(wait);
        true
    }

    /// How phases are to be changed, if they are. They then count as changed.
    pub(crate) fn rephases(&mut self) -> Option<Change> {
        if self.conflicts < self.rephase_at {
            return None;
        }
        self.rephases = self.rephases.saturating_add(1);
        let wait = REPHASE.saturating_mul(self.rephases.saturating_add(1));
        self.rephase_at = self.conflicts.saturating_add(wait);
        Some(match self.rephases % 6 {
            1 => Change::All(false),
            3 => Change::All(true),
            5 => Change::Flip,
            _ => Change::Best,
        })
    }
}

// An average that is moved towards a value by a part of the way, one of 2 to the power of `size`.
fn moved(average: u64, value: u32, size: u32) -> u64 {
    let scaled = u64::from(value) << 24;
    let share = size.min(63);
    (average - (average >> share)).saturating_add(scaled >> share)
}

// The number of binary digits behind the first one.
fn log2(number: u64) -> u32 {
    63 - number.max(1).leading_zeros().min(63)
}
