//! The dots of the forms, as they are listed under the names of forms: inside the tile, none twice,
//! and in order.
ghost use Rattle.std.specs.Prelude.{◌≡◌, ◌≢◌, ◌<◌, ◌≤◌, ℕ, Some, List, length, map, unwrap_or, [], IfOk, IfErr, OnOk, IfSome, IfNone, All};
ghost use Rattle.serde_json.specs.View.{view};
ghost use Rattle.bx_forms.specs.Forms.{IsForm, form_count};
ghost use Rattle.bx_library.specs.declared.dot.Dot.{Dot};
ghost use Rattle.bx_library.specs.Dots.{IsAscending, HaveSameDots};
ghost use Rattle.bx_library.specs.Drawn.{IsDrawn, AreDrawn, AreFine, lists_of};
ghost use Rattle.bx_library.specs.Faults.{UnlessRefused, IsFree, AtLeast, IsOutsideAt, IsRepeatAt, HasBadDots, HasBadForm, HasBadForms};
ghost use Rattle.bx_library.specs.Tiles.{IsInside};
ghost use Rattle.bx_library.specs.Triples.{triple_dot};
ghost use Rattle.bx_library.specs.Values.{form_value, listed_dots, dots_of};

use crate::fields::Fields;
use crate::values::{Triple, triples};
use crate::{Dot, Field, LibraryFault};
use bx_forms::Form;
use serde_json::Value;
use std::alloc::Global;
use std::collections::BTreeSet;

// The most dots that a form may have.
const MOST_DOTS: usize = 1024;

/// The dots of each form, in the order of the forms' numbers, each list ascending: none where the
/// form isn't offered.
///
/// # Errors
///
/// The first fault of the form of the least number that has one, or `NoMemory`.
pub(crate) fn form_dots(alloc: Global, fields: &Fields<'_>) -> Result<Vec<Vec<Dot>>, LibraryFault>
    ensures count { IfOk result (λ all. length all.items ≡ form_count) }
    ensures drawn { IfOk result (λ all. AreDrawn fields.now.width fields.now.height
        (view fields.now.forms.now) (lists_of all.items)) }
    ensures fine { OnOk result
        (AreFine fields.now.width fields.now.height (view fields.now.forms.now)) }
    ensures err { IfErr result (UnlessRefused
        (HasBadForms fields.now.width fields.now.height (view fields.now.forms.now))) }
{
    let mut all = Vec::new(alloc);
    let mut number = 0;
    'forms: while let Some(form) = Form::from_number(number) {
        all.push(dots_at(alloc, form, fields)?)?;
        number += 1;
    }
    Ok(all)
}

// The dots of a form, none where it isn't offered.
fn dots_at(alloc: Global, form: Form, fields: &Fields<'_>) -> Result<Vec<Dot>, LibraryFault>
    ensures drawn { IfOk result (λ dots. IsDrawn fields.now.width fields.now.height
        (listed_dots (view fields.now.forms.now) form) dots.items) }
    ensures fine { OnOk result (IsFree (HasBadForm fields.now.width fields.now.height form
        (form_value (view fields.now.forms.now) form))) }
    ensures err { IfErr result (UnlessRefused (HasBadForm fields.now.width fields.now.height form
        (form_value (view fields.now.forms.now) form))) }
{
    match fields.forms.get(form.name()) {
        Some(value) => dots_of_form(alloc, form, value, fields.width, fields.height),
        None => Ok(Vec::new(alloc)),
    }
}

// The dots of a form that is offered.
fn dots_of_form(
    alloc: Global,
    form: Form,
    value: &Value,
    width: u32,
    height: u32,
) -> Result<Vec<Dot>, LibraryFault>
    ensures drawn { IfOk result
        (λ dots. IsDrawn width height (unwrap_or (dots_of (view value.now)) []) dots.items) }
    ensures fine { OnOk result (IsFree (HasBadForm width height form (Some (view value.now)))) }
    ensures err { IfErr result
        (UnlessRefused (HasBadForm width height form (Some (view value.now)))) }
{
    match triples(alloc, value)? {
        Some(listed) => checked_dots(alloc, form, &listed, width, height),
        None => Err(LibraryFault::Shape(Field::Of(form))),
    }
}

// The dots that are listed for a form.
fn checked_dots(
    alloc: Global,
    form: Form,
    listed: &[Triple],
    width: u32,
    height: u32,
) -> Result<Vec<Dot>, LibraryFault>
    ensures drawn { IfOk result
        (λ dots. IsDrawn width height (map triple_dot listed.now) dots.items) }
    ensures free { OnOk result (IsFree (HasBadDots width height form (map triple_dot listed.now))) }
    ensures err { IfErr result (λ fault. fault ≢ LibraryFault.NoMemory →
        HasBadDots width height form (map triple_dot listed.now) fault) }
{
    if listed.is_empty() {
        return Err(LibraryFault::NoDots(form));
    }
    if listed.len() > MOST_DOTS {
        return Err(LibraryFault::TooManyDots(form));
    }
    let dots = inside_dots(alloc, form, listed, width, height)?;
    ascending(alloc, form, &dots)
}

// The listed dots, if each lies inside the tile.
fn inside_dots(
    alloc: Global,
    form: Form,
    listed: &[Triple],
    width: u32,
    height: u32,
) -> Result<Vec<Dot>, LibraryFault>
    requires { length listed.now ≤ 1024 }
    ensures same { IfOk result (λ dots. dots.items ≡ map triple_dot listed.now) }
    ensures inside { IfOk result (λ dots. All (IsInside width height) dots.items) }
    ensures err { IfErr result (λ fault. fault ≢ LibraryFault.NoMemory →
        AtLeast (IsOutsideAt width height (map triple_dot listed.now))
        (LibraryFault.DotOutside form) fault) }
{
    let mut dots = Vec::new(alloc);
    for (k, triple) in listed.iter().enumerate() {
        let Some(dot) = inside(*triple, width, height) else {
            return Err(LibraryFault::DotOutside(form, k as u32));
        };
        dots.push(dot)?;
    }
    Ok(dots)
}

// The dot of these numbers, if it lies inside the tile.
fn inside(triple: Triple, width: u32, height: u32) -> Option<Dot>
    ensures some { IfSome result (λ dot. (dot ≡ triple_dot triple) × IsInside width height dot) }
    ensures none { IfNone result (IsInside width height (triple_dot triple) → ⊥) }
{
    let Triple { n, m, l } = triple;
    if n < width && m < height && l < 2 {
        Some(Dot { n, m, l: l as u8 })
    } else {
        None
    }
}

// The dots in order, if none is there twice.
fn ascending(alloc: Global, form: Form, dots: &[Dot]) -> Result<Vec<Dot>, LibraryFault>
    requires { length dots.now ≤ 1024 }
    ensures ascending { IfOk result (λ sorted. IsAscending sorted.items) }
    ensures same { IfOk result (λ sorted. HaveSameDots dots.now sorted.items) }
    ensures count { IfOk result (λ sorted. length sorted.items ≡ length dots.now) }
    ensures free { OnOk result ((k : ℕ) → IsRepeatAt dots.now k → ⊥) }
    ensures err { IfErr result
        (UnlessRefused (AtLeast (IsRepeatAt dots.now) (LibraryFault.SameDot form))) }
{
    let mut seen = BTreeSet::new(alloc);
    for (k, dot) in dots.iter().enumerate() {
        if !seen.insert(*dot)? {
            return Err(LibraryFault::SameDot(form, k as u32));
        }
    }
    Ok(seen.into_iter().collect(alloc)?)
}
