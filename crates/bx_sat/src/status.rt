//! How a run ends, and the exit status of the program for it.
ghost use Rattle.std.specs.Prelude.{◌≡◌};
ghost use Rattle.bx_sat.specs.Statuses.{exit_status};

/// How a run ended.
#[derive(Clone, Copy)]
pub enum SatStatus {
    /// The proof is accepted for the formula, and that was said.
    Verified,
    /// The proof isn't accepted, and that was said.
    NotVerified,
    /// A file has a line that can't be read, and the first was said.
    BadLine,
    /// There is a solution, and it was said.
    Satisfiable,
    /// There is no solution, the proof is in its file, and that was said.
    Unsatisfiable,
    /// The budget, or the conflicts, ended, and that was said.
    Unknown,
    /// A file could not be read or is too long, or a file or output could not be written.
    Failed,
    /// Memory was refused. Nothing was written or said.
    NoMemory,
    /// The words are no command, and the usage was said.
    Words,
}

impl SatStatus {
    /// The exit status of the program: 0 verified or unknown, 1 not verified, 2 a bad line, 10 satisfiable,
    /// 20 unsatisfiable, 4 a file or output failed, 5 no memory, 6 words.
    pub fn code(self) -> u8
        ensures { result ≡ exit_status self }
    {
        match self {
            SatStatus::Verified | SatStatus::Unknown => 0,
            SatStatus::NotVerified => 1,
            SatStatus::BadLine => 2,
            SatStatus::Failed => 4,
            SatStatus::NoMemory => 5,
            SatStatus::Words => 6,
            SatStatus::Satisfiable => 10,
            SatStatus::Unsatisfiable => 20,
        }
    }
}
