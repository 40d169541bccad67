//! The clauses of a formula under a trail of assigned literals, and the least-numbered of them that is
//! active, that is, unit or false. Each clause watches two of its literals (Moskewicz and others, 2001,
//! as in MiniSat with another literal of the clause beside each entry of a list): while neither is
//! false, it can't be active, so an assignment goes through the clauses that watch the negation alone,
//! and not through all. A solver that takes any active clause would stop at the first that it meets;
//! here the least number is asked for, so the clauses that may be active stand in a set that knows its
//! least one, and the order of the lists can't show.
#![tactic(auto)]

mod active;
mod attach;
mod clean;
mod falsify;
mod growth;
pub mod laws;
mod lists;
mod reading;
mod release;
mod store;
mod trail;
mod watched;
mod watches;

pub use active::Active;
pub use watched::Watched;
