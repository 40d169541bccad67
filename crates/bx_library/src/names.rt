//! The names that stand among the forms of a library.
ghost use Rattle.std.specs.Prelude.{◌≡◌, ◌≢◌, List, ℕ, IfOk, IfErr, OnOk, IfSome, IsNone};
ghost use Rattle.serde_json.specs.Data.{object};
ghost use Rattle.serde_json.specs.View.{view, members_view};
ghost use Rattle.bx_library.specs.Faults.{UnlessRefused, IsFree, IsUnknown, IsLeastUnknown, HasUnknownForm};

use crate::LibraryFault;
use bx_forms::Form;
use bx_logic::{Name, NoMemory};
use serde_json::{Map, Value};
use std::alloc::Global;

/// Refuses a value with a key that is the name of no form.
///
/// # Errors
///
/// `UnknownForm` with the least such key, or `NoMemory`.
pub(crate) fn check_names(alloc: Global, forms: &Value) -> Result<(), LibraryFault>
    ensures free { OnOk result (IsFree (HasUnknownForm (view forms.now))) }
    ensures err { IfErr result (UnlessRefused (HasUnknownForm (view forms.now))) }
{
    let Some(map) = forms.as_object() else {
        return Ok(());
    };
    match unknown_name(map) {
        Some(name) => Err(LibraryFault::UnknownForm(copy(alloc, name)?)),
        None => Ok(()),
    }
}

// The least key that is the name of no form. The keys of a map are in the order of their bytes.
fn unknown_name(map: &Map<String, Value>) -> Option<&str>
    ensures some { IfSome result
        (λ name. IsLeastUnknown (object (members_view map.now.entries)) name.now) }
    ensures none { IsNone result → (name : List ℕ) →
        IsUnknown (object (members_view map.now.entries)) name → ⊥ }
{
    for name in map.keys() {
        if Form::by_name(name.as_str()).is_none() {
            return Some(name.as_str());
        }
    }
    None
}

// A name with these bytes.
fn copy(alloc: Global, text: &str) -> Result<Name, NoMemory>
    ensures { IfOk result (λ name. name ≡ text.now) }
{
    Ok(Name::new(Vec::from_slice(alloc, text.as_bytes())?))
}
