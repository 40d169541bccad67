//! How much work a search may be asked for, how many workers may share it, and which samples there are.

/// The most that a budget is, for one ratio.
pub const MOST_BUDGET: u64 = 67_108_864;

/// The most that a budget is, times the number of ratios.
pub const MOST_WORK: u64 = 67_108_864;

/// The most workers that share the ratios.
pub const MOST_WORKERS: u32 = 16;

// The most number that a sample is drawn from, the most gates that its outputs may need, and the most further ones.
pub(crate) const MOST_SAMPLE: u32 = 2_147_483_647;

pub(crate) const MOST_GATES: u32 = 32;

pub(crate) const MOST_EXTRA: u32 = 10_000;

/// The most digits that a number has, leading zeros with them.
pub(crate) const MOST_DIGITS: usize = 10;
