//! Reading a library. It promises the library of the bytes, or their first fault, unless memory
//! runs out. What JSON is, is `serde_json`'s to say.
ghost use Rattle.std.specs.Prelude.{◌≡◌, ◌≢◌, Result, Ok, Err, IfOk, IfErr};
ghost use Rattle.serde_json.specs.View.{view};
ghost use Rattle.bx_library.specs.declared.fault.LibraryFault.{LibraryFault as Fault};
ghost use Rattle.bx_library.specs.Readings.{Gives, Reads};
ghost use Rattle.bx_library.specs.Tiles.{Tiles};

use crate::alike::check_pairs;
use crate::fields::{check_size, read_fields};
use crate::forms::form_dots;
use crate::names::check_names;
use crate::{Library, LibraryFault};
use serde_json::Value;
use std::alloc::Global;

/// The library that these bytes hold, as JSON.
///
/// # Errors
///
/// The first fault of the bytes, or `NoMemory`.
pub fn read_library(alloc: Global, bytes: &[u8]) -> Result<Library, LibraryFault>
    // The library that is answered is that of the bytes.
    ensures found { IfOk result (λ library. Reads bytes.now (Ok library)) }
    // The fault that is answered is the first one of the bytes.
    ensures faults { IfErr result
        (λ fault. fault ≢ LibraryFault.NoMemory → Reads bytes.now (Err fault)) }
    // What the bytes give is answered, unless memory runs out.
    ensures exact { (r : Result Tiles Fault) → Reads bytes.now r →
        result ≢ Err LibraryFault.NoMemory → result ≡ r }
{
    match Value::from_slice(alloc, bytes) {
        Ok(value) => library(alloc, &value),
        Err(error) if error.is_memory() => Err(LibraryFault::NoMemory),
        Err(_) => Err(LibraryFault::NotJson),
    }
}

// The library of a value.
fn library(alloc: Global, value: &Value) -> Result<Library, LibraryFault>
    ensures found { IfOk result (λ library. Gives (view value.now) (Ok library)) }
    ensures faults { IfErr result
        (λ fault. fault ≢ LibraryFault.NoMemory → Gives (view value.now) (Err fault)) }
{
    let fields = read_fields(value)?;
    check_size(fields.width, fields.height)?;
    check_names(alloc, fields.forms)?;
    let dots = form_dots(alloc, &fields)?;
    check_pairs(&dots)?;
    Ok(Library::new(fields.width, fields.height, dots))
}
