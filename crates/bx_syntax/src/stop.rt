//! Where a reader of terminals stops: at the first that the grammar doesn't go on with. The reader
//! commits to one continuation at each terminal and never goes back behind one, so this is the place
//! of the bad token. Which construct that token is, is left to the one who has the text, and that nothing
//! else begins a module there to the proofs.
ghost use Rattle.std.specs.Prelude.{◌≡◌};
ghost use Rattle.bx_syntax.specs.declared.stop.Stop.TheVariants.{NoMemory as OutOfMemory};

use std::alloc::{AllocError, AllocFailed};

// What may stand where a reader stops, as far as the construct depends on it.
#[derive(Clone, Copy, PartialEq, Eq)]
pub(crate) enum Wanted {
    // An item of a module.
    Item,
    // A primary.
    Primary,
    // The end of the text.
    End,
    // Anything else.
    Other,
}

// Why a reader stops. A place is how many terminals were left there.
#[derive(Clone, Copy)]
pub(crate) enum Stop {
    // The terminal there isn't one that may stand there.
    Bad(usize, Wanted),
    // The `~` or `(` there nests too deep.
    Deep(usize),
    NoMemory,
}

impl From<AllocError> for Stop {
    ghost from_gives = { λ _ e. e ≡ OutOfMemory };

    fn from(_error: AllocError) -> Stop {
        Stop::NoMemory
    }
}

impl<T: Drop> From<AllocFailed<T>> for Stop {
    ghost from_gives = { λ _ e. e ≡ OutOfMemory };

    fn from(_error: AllocFailed<T>) -> Stop {
        Stop::NoMemory
    }
}
