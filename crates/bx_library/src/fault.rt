//! What can be wrong with bytes that are to be a library. Which fault is the first one is for the
//! definitions to say.
ghost use Rattle.std.specs.Prelude.{◌≡◌};
ghost use Rattle.bx_library.specs.declared.fault.LibraryFault.TheVariants.{NoMemory as OutOfMemory};

use bx_forms::Form;
use bx_logic::{Name as FormName, NoMemory};
use std::alloc::{AllocError, AllocFailed};

/// A field of the format.
#[derive(Clone, Copy)]
pub enum Field {
    /// `name`, a text.
    Name,
    /// `width`, a whole number.
    Width,
    /// `height`, a whole number.
    Height,
    /// `forms`, an object.
    Forms,
    /// The form's own field in `forms`, a list of lists of three whole numbers.
    Of(Form),
}

/// Why bytes are no library. The faults of the bytes come in this order, and those of a form before
/// those of the forms behind it. `NoMemory` is no fault of the bytes, and may come at any time.
#[derive(Drop)]
pub enum LibraryFault {
    /// The bytes are no JSON.
    NotJson,
    /// The field is missing or of another type. That of a form comes with the form's other faults.
    Shape(Field),
    /// The width is odd or not from 2 to 256, or the height isn't from 1 to 256.
    BadSize(Field),
    /// No form has this name, the least such in the order of bytes.
    UnknownForm(FormName),
    /// The form's list is empty.
    NoDots(Form),
    /// The form's list has more than 1,024 dots.
    TooManyDots(Form),
    /// The form's dot of this index, from 0, lies outside the tile.
    DotOutside(Form, u32),
    /// The form's dot of this index, from 0, equals one before it.
    SameDot(Form, u32),
    /// The two forms are of one group and have the same dots.
    SameDots(Form, Form),
    /// Memory was refused.
    NoMemory,
}

impl From<NoMemory> for LibraryFault {
    ghost from_gives = { λ _ fault. fault ≡ OutOfMemory };

    fn from(_: NoMemory) -> Self {
        LibraryFault::NoMemory
    }
}

impl From<AllocError> for LibraryFault {
    ghost from_gives = { λ _ fault. fault ≡ OutOfMemory };

    fn from(_: AllocError) -> Self {
        LibraryFault::NoMemory
    }
}

impl<T: Drop> From<AllocFailed<T>> for LibraryFault {
    ghost from_gives = { λ _ fault. fault ≡ OutOfMemory };

    fn from(_: AllocFailed<T>) -> Self {
        LibraryFault::NoMemory
    }
}
