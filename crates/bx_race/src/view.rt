//! What a worker knows, as proofs see it: the plain data that a seat carries. No value of `Draws` or `View`
//! is made, and they have no bytes when the program runs.

use std::collections::LinkedList;

/// What one worker drew, and what became of each index. In a contract a `LinkedList` is a list.
pub struct Draws {
    /// The index that is drawn and not decided.
    pub current: Option<u64>,
    /// The indices after which the worker drew again.
    pub done: LinkedList<u64>,
    /// The indices that the worker decided for good.
    pub offered: LinkedList<u64>,
    /// The indices that an earlier decision made needless.
    pub dropped: LinkedList<u64>,
    /// How often the number drawn was no index any more.
    pub past: u64,
}

/// What a seat knows: the race's number of indices, what it drew, how often it looked, and for how many
/// seats it stands.
pub struct View {
    pub n: u64,
    pub draws: Draws,
    pub looks: u64,
    pub stands: u64,
}

/// What a race is over: how many indices there are, and how many seats.
#[derive(Drop)]
pub struct Course {
    pub n: u64,
    pub seats: u32,
}
