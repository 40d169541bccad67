//! What bestagon asks of its surroundings: files by name, one of which may be started and written to,
//! and a place to say things. The trait `Desk` stands for them, so that everything above is proved
//! over any desk, real or in memory.
//!
//! Each kind of call has a count of its failures: `load`; `start` and `append`; `say`. It rises only
//! in a call that answers `Failed`, and an answer that blames the desk comes only where it rose. So no
//! body can blame a desk that did not fail, as long as the counts are below 2^64 - 1, where they stop.
ghost use Rattle.std.specs.Prelude.{◌≡◌, ◌+◌, ◌≤◌, ◌↔◌, [], vec_len, IsSome, IsTrue, OnOk, OnErr, IsErrOf};
ghost use Rattle.bx_desk.specs.Desk.{DeskState, IsFile, BeginsFile, IsLoadAnswer, FailsToLoad, Starts, FailsToStart, Writes, WritesFront, Says, SaysFront};

use std::error::Error;
use std::fmt;

/// The desk could not do it. Its count of such failures rose.
#[derive(Clone, Copy, Debug, PartialEq, Eq)]
pub struct Failed;

impl fmt::Display for Failed {
    fn fmt<W: fmt::Write>(&self, f: &mut fmt::Formatter<W>) -> fmt::Result {
        f.write_str("the desk failed")
    }
}

impl Error for Failed {}

/// Why a file was not loaded.
#[derive(Clone, Copy, Debug)]
pub enum LoadFault {
    /// There is no such file, or reading it failed.
    Failed,
    /// The file is longer than the limit.
    TooLong,
    /// Memory was refused.
    NoMemory,
}

impl fmt::Display for LoadFault {
    fn fmt<W: fmt::Write>(&self, f: &mut fmt::Formatter<W>) -> fmt::Result {
        f.write_str(match self {
            LoadFault::Failed => "the file could not be read",
            LoadFault::TooLong => "the file is too long",
            LoadFault::NoMemory => "out of memory",
        })
    }
}

impl Error for LoadFault {}

/// Files by name, of which one may be started, and a place to say things. What a call doesn't name stays.
pub trait Desk {
    /// What the desk shows.
    ghost state: { Self → DeskState };

    /// Reads a whole file of at most `limit` bytes into an empty vector.
    ///
    /// # Errors
    ///
    /// `Failed` where there is no such file or reading it failed, `TooLong` where it has more than
    /// `limit` bytes: then the vector has its first `limit + 1`. After any other error the vector is
    /// empty.
    fn load(&mut self, name: &str, limit: u64, into: &mut Vec<u8>) -> Result<(), LoadFault>
        requires { into.old.items ≡ [] }

        ensures whole { OnOk result (IsFile (state self.old).files name.now into.new.items) }
        ensures within { OnOk result (vec_len into.new ≤ limit) }

        // `TooLong`: the file begins with what the vector has, which is a byte past the limit.
        ensures too_long { IsErrOf result LoadFault.TooLong → vec_len into.new ≡ limit + 1 }
        ensures too_long_front { IsErrOf result LoadFault.TooLong
            → BeginsFile (state self.old).files name.now into.new.items }

        // The answer follows from the file, unless memory was refused or the desk failed.
        ensures answer { IsLoadAnswer (state self.old) (state self.new) name.now limit result }

        ensures failed_empty { IsErrOf result LoadFault.Failed → into.new.items ≡ [] }
        ensures no_memory_empty { IsErrOf result LoadFault.NoMemory → into.new.items ≡ [] }

        // Only `Failed` changes the desk, and then the count of failed loads alone.
        ensures failed { IsErrOf result LoadFault.Failed
            → FailsToLoad (state self.old) (state self.new) }
        ensures ok_stays { OnOk result (state self.new ≡ state self.old) }
        ensures too_long_stays { IsErrOf result LoadFault.TooLong
            → state self.new ≡ state self.old }
        ensures no_memory_stays { IsErrOf result LoadFault.NoMemory
            → state self.new ≡ state self.old };

    /// Starts a file: from now on it exists, is empty, and is the one that `append` writes to.
    ///
    /// # Errors
    ///
    /// `Failed` where it could not be made or emptied. Then no file is started.
    fn start(&mut self, name: &str) -> Result<(), Failed>
        ensures ok { OnOk result (Starts (state self.old) (state self.new) name.now) }
        ensures err { OnErr result (FailsToStart (state self.old) (state self.new) name.now) };

    /// Whether a file is started.
    fn has_started(&self) -> bool
        ensures { IsTrue result ↔ IsSome (state self.now).started };

    /// Writes the bytes at the end of the started file.
    ///
    /// # Errors
    ///
    /// `Failed` where not all of them could be written: then a front of them was. The file is still
    /// the started one.
    fn append(&mut self, piece: &[u8]) -> Result<(), Failed>
        requires { IsSome (state self.old).started }
        ensures ok { OnOk result (Writes (state self.old) (state self.new) piece.now) }
        ensures err { OnErr result (WritesFront (state self.old) (state self.new) piece.now) };

    /// Says the bytes, behind those said before.
    ///
    /// # Errors
    ///
    /// `Failed` where not all of them could be said: then a front of them was.
    fn say(&mut self, piece: &[u8]) -> Result<(), Failed>
        ensures ok { OnOk result (Says (state self.old) (state self.new) piece.now) }
        ensures err { OnErr result (SaysFront (state self.old) (state self.new) piece.now) };
}
