//! How many calls of a desk have failed. No program asks, since each answer says whether its call failed:
//! the module is public for the tests alone.
ghost use Rattle.std.specs.Prelude.{◌≡◌};

use crate::{MemDesk, StdDesk};
use std::rt::Files;

/// How often each kind of call has failed: `load`; `start` and `append`; `say`.
#[derive(Clone, Copy)]
pub struct Faults {
    pub load: u64,
    pub write: u64,
    pub say: u64,
}

impl<R: Files> StdDesk<'_, R> {
    /// The counts of the real desk.
    pub fn faults(&self) -> Faults
        ensures load { result.load ≡ self.now.load_faults }
        ensures write { result.write ≡ self.now.write_faults }
        ensures say { result.say ≡ self.now.say_faults }
    {
        Faults {
            load: self.load_faults,
            write: self.write_faults,
            say: self.say_faults,
        }
    }
}

impl MemDesk {
    ghost use Rattle.bx_desk.specs.Memory.{state_of};

    /// The counts of the desk in memory.
    pub fn faults(&self) -> Faults
        ensures load { result.load ≡ (state_of self.now).faults.load }
        ensures write { result.write ≡ (state_of self.now).faults.write }
        ensures say { result.say ≡ (state_of self.now).faults.say }
    {
        Faults {
            load: self.load_faults,
            write: self.write_faults,
            say: self.say_faults,
        }
    }
}
