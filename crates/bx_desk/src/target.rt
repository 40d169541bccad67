//! Where bytes go that are put out. Which bytes, and when, is left to a piece and its callers.

/// What is said, or the started file.
#[derive(Clone, Copy)]
pub enum Target {
    /// They are said.
    Output,
    /// They go to the end of the started file.
    File,
}
