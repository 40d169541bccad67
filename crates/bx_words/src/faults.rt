//! What may be wrong with the words of the command line.

use crate::opts::Opt;
use std::alloc::AllocError;

/// What is wrong with the words, in the order in which they are looked at.
#[derive(Clone, Copy)]
pub enum WordFault {
    /// There is no first word, or it names no command.
    Command,
    /// The command doesn't take the words behind it.
    Usage,
    /// The first option whose text isn't one to ten digits.
    Number(Opt),
    /// The first option whose number is out of its range, where all are numbers.
    Range(Opt),
    /// A file that is to be written has the name of another file of these words.
    Same,
    /// The budget times the number of ratios is this, and more than a search may be asked for.
    Work(u64),
}

/// Why the words give no command.
#[derive(Clone, Copy)]
pub enum NoCommand {
    /// The first thing that is wrong with them.
    Fault(WordFault),
    /// Memory was refused. It may come at any time behind the first word.
    NoMemory,
}

impl From<AllocError> for NoCommand {
    ghost use Rattle.std.specs.Prelude.{◌≡◌};
    ghost use Rattle.bx_words.specs.declared.faults.NoCommand.TheVariants.{NoMemory};

    ghost from_gives = { λ _ none. none ≡ NoMemory };

    fn from(_: AllocError) -> Self {
        NoCommand::NoMemory
    }
}
