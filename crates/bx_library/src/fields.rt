//! The four fields of a library, and the size of its tiles.
ghost use Rattle.std.specs.Prelude.{◌≡◌, ◌↔◌, option_map, IfOk, IfErr, OnOk, IsSome, IsTrue};
ghost use Rattle.serde_json.specs.View.{view};
ghost use Rattle.bx_library.specs.Faults.{IsFree, HasBadShape, HasBadSize};
ghost use Rattle.bx_library.specs.Tiles.{IsWidth, IsHeight};
ghost use Rattle.bx_library.specs.Values.{name_of, width, height, forms, forms_of};

use crate::values::number;
use crate::{Field, LibraryFault};
use serde_json::Value;

/// The fields that a library is made of, each of its type.
#[derive(Clone, Copy)]
pub(crate) struct Fields<'a> {
    pub width: u32,
    pub height: u32,
    // An object.
    pub forms: &'a Value,
}

/// The fields of a value.
///
/// # Errors
///
/// The first one that is missing or of another type.
pub(crate) fn read_fields(value: &Value) -> Result<Fields<'_>, LibraryFault>
    ensures width { IfOk result (λ f. f.width ≡ width (view value.now)) }
    ensures height { IfOk result (λ f. f.height ≡ height (view value.now)) }
    ensures forms { IfOk result (λ f. view f.forms.now ≡ forms (view value.now)) }
    ensures free { OnOk result (IsFree (HasBadShape (view value.now))) }
    ensures err { IfErr result (HasBadShape (view value.now)) }
{
    if !has_name(value) {
        return Err(LibraryFault::Shape(Field::Name));
    }
    let Some(width) = number(value, "width") else {
        return Err(LibraryFault::Shape(Field::Width));
    };
    let Some(height) = number(value, "height") else {
        return Err(LibraryFault::Shape(Field::Height));
    };
    let Some(forms) = forms_field(value) else {
        return Err(LibraryFault::Shape(Field::Forms));
    };
    Ok(Fields {
        width,
        height,
        forms,
    })
}

// Whether there is a name, and it is a text.
fn has_name(value: &Value) -> bool
    ensures { IsTrue result ↔ IsSome (name_of (view value.now)) }
{
    match value.get("name") {
        Some(name) => name.is_string(),
        None => false,
    }
}

// The value of `forms`, if it is an object.
fn forms_field(value: &Value) -> Option<&Value>
    ensures { option_map (λ v. view v.now) result ≡ forms_of (view value.now) }
{
    let forms = value.get("forms")?;
    if forms.is_object() { Some(forms) } else { None }
}

/// Refuses a size that tiles may not have.
///
/// # Errors
///
/// `BadSize`, of the width before that of the height.
pub(crate) fn check_size(width: u32, height: u32) -> Result<(), LibraryFault>
    ensures width { OnOk result (IsWidth width) }
    ensures height { OnOk result (IsHeight height) }
    ensures free { OnOk result (IsFree (HasBadSize width height)) }
    ensures err { IfErr result (HasBadSize width height) }
{
    if width % 2 != 0 || width < 2 || width > 256 {
        return Err(LibraryFault::BadSize(Field::Width));
    }
    if height < 1 || height > 256 {
        return Err(LibraryFault::BadSize(Field::Height));
    }
    Ok(())
}
