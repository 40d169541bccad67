//! A gate is told when work on a ratio begins and when it ends. It promises nothing; tests use one
//! to see that ratios are worked on at the same time.

/// What is told of the work on each ratio, by its index in the order of ratios.
pub trait Gate {
    /// Work on the ratio begins.
    fn enter(&self, index: u64);

    /// Work on the ratio has ended.
    fn leave(&self, index: u64);
}

/// A gate that does nothing.
#[derive(Clone, Copy)]
pub struct OpenGate;

impl Gate for OpenGate {
    fn enter(&self, _index: u64) {}

    fn leave(&self, _index: u64) {}
}
