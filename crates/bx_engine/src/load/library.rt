//! From the file of a library to the library. What its text gives is for bx_library to say.
ghost use Rattle.std.specs.Prelude.{◌≡◌, IfOk, IfErr, OnOk};
ghost use Rattle.bx_engine.specs.Texts.{IsShortLibrary, IsRefusedLibrary, IsTakenLibrary};
ghost use Rattle.bx_engine.specs.Runs.{ReadsLibrary, LibraryEnds, FileEnds};

use crate::limits::LIBRARY_BYTES;
use crate::load::NoInput;
use crate::status::{InputFault, Which};
use bx_desk::{Desk, LoadFault};
use bx_library::{Library, LibraryFault, read_library};
use std::alloc::Global;

impl From<LibraryFault> for NoInput {
    ghost use Rattle.std.specs.Prelude.{◌≡◌};
    ghost use Rattle.bx_engine.specs.Runs.{library_end};

    ghost from_gives = { λ fault end. end ≡ library_end fault };

    fn from(fault: LibraryFault) -> Self {
        match fault {
            LibraryFault::NoMemory => NoInput::NoMemory,
            fault => NoInput::Fault(InputFault::Library(fault)),
        }
    }
}

/// Loads the file and reads its library.
pub fn load_library<D: Desk>(alloc: Global, name: &str, desk: &mut D) -> Result<Library, NoInput>
    ensures library { IfOk result (ReadsLibrary (D.state desk.old).files name.now) }
    ensures ok_stays { OnOk result (D.state desk.new ≡ D.state desk.old) }
    ensures err { IfErr result (FileEnds IsRefusedLibrary (D.state desk.old) (D.state desk.new) name.now) }
{
    let mut text = Vec::new(alloc);
    match desk.load(name, LIBRARY_BYTES, &mut text) {
        Ok(()) => library_of_text(alloc, &text),
        Err(LoadFault::TooLong) => Err(NoInput::Fault(InputFault::TooLong(Which::LibFile))),
        Err(LoadFault::Failed) => Err(NoInput::Unread),
        Err(LoadFault::NoMemory) => Err(NoInput::NoMemory),
    }
}

/// Reads the library of a text.
pub(crate) fn library_of_text(alloc: Global, text: &[u8]) -> Result<Library, NoInput>
    requires { IsShortLibrary text.now }
    ensures library { IfOk result (IsTakenLibrary text.now) }
    ensures err { IfErr result (LibraryEnds text.now) }
{
    let library = read_library(alloc, text)?;
    // (known from here on: it keeps what a library keeps)
    let _width = library.width();
    Ok(library)
}
