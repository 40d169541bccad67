//! How many workers check a proof.
ghost use Rattle.std.specs.Prelude.{◌≤◌};

/// A number of workers, from 1 to 16.
#[derive(Clone, Copy)]
pub(crate) struct Workers {
    pub(crate) number: u32,
    ghost some: { 1 ≤ number },
    ghost few: { number ≤ 16 },
}
