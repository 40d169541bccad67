//! The dots that lie in one tile, and the form that they make.
ghost use Rattle.std.specs.Prelude.{◌≡◌, ◌↔◌, ◌+◌, ◌<◌, ◌≤◌, ◌^◌, ℕ, map, filter, All, Contains, IfOk, IfErr, IfSome, IsNone, IsTrue};
ghost use Rattle.bx_grid.specs.Tiles.{IsGrid, IsTile};
ghost use Rattle.bx_library.specs.declared.dot.Dot.{Dot};
ghost use Rattle.bx_library.specs.Dots.{IsAscending};
ghost use Rattle.bx_library.specs.Tiles.{IsLibrary};
ghost use Rattle.bx_dots.specs.Cuts.{group_of_row as group_by_row, AreOwn, ReadsAs};
ghost use Rattle.bx_dots.specs.Reading.{IsFormWith, IsRefusal, is_among, moved_back as back_by};

use crate::CutFault;
use crate::place::Origin;
use bx_forms::Form;
use bx_grid::{Ratio, column_and_row};
use bx_library::{Dot, Group, Library, same_list};
use bx_logic::NoMemory;
use std::alloc::Global;

/// The form that the dots in a tile make, or none where there are none.
///
/// # Errors
///
/// `StrangeTile` if there are dots and they are those of no form of the tile's row, or `NoMemory`.
pub(crate) fn read_tile(
    alloc: Global,
    library: &Library,
    ratio: Ratio,
    tile: u32,
    dots: &[Dot],
) -> Result<Option<Form>, CutFault>
    requires grid { IsGrid ratio }
    requires tile { IsTile ratio tile }
    requires ascending { IsAscending dots.now }
    ensures ok { IfOk result (ReadsAs library.now ratio dots.now tile) }
    ensures err { IfErr result (IsRefusal library.now ratio dots.now tile) }
    ensures kept { IsLibrary library.now }
{
    let owns = own_dots(alloc, library, ratio, tile, dots)?;
    if owns.is_empty() {
        return Ok(None);
    }
    let (_, row) = column_and_row(ratio, tile);
    let group = group_of_row(ratio, row);
    match form_with(library, group, &owns) {
        Some(form) => Ok(Some(form)),
        None => Err(CutFault::StrangeTile(tile)),
    }
}

// The group of forms by which a row of tiles is read.
fn group_of_row(ratio: Ratio, row: u32) -> Group
    requires { row < ratio.h }
    ensures { result ≡ group_by_row ratio row }
{
    if row == 0 {
        Group::Inputs
    } else if row + 1 == ratio.h {
        Group::Outputs
    } else {
        Group::Others
    }
}

// The form of this group that has these dots and no others.
fn form_with(library: &Library, group: Group, owns: &[Dot]) -> Option<Form>
    requires { IsLibrary library.now }
    ensures some { IfSome result (IsFormWith library.now group owns.now) }
    ensures none { IsNone result → (form : ℕ) → IsFormWith library.now group owns.now form → ⊥ }
{
    let mut number = 0;
    'forms: while let Some(form) = Form::from_number(number) {
        if is_form_with(library, form, group, owns) {
            return Some(form);
        }
        number += 1;
    }
    None
}

// Whether the form is offered, is of this group, and has these dots and no others.
fn is_form_with(library: &Library, form: Form, group: Group, owns: &[Dot]) -> bool
    ensures { IsTrue result ↔ IsFormWith library.now group owns.now form }
{
    if !library.offers().has(form) || Group::of(form) != group {
        return false;
    }
    same_list(library.dots(form), owns)
}

// The dots in a tile, as a form of that tile would have them.
fn own_dots(
    alloc: Global,
    library: &Library,
    ratio: Ratio,
    tile: u32,
    dots: &[Dot],
) -> Result<Vec<Dot>, NoMemory>
    requires grid { IsGrid ratio }
    requires tile { IsTile ratio tile }
    requires ascending { IsAscending dots.now }
    ensures own { IfOk result (λ owns. AreOwn library.now ratio dots.now tile owns.items) }
    ensures ascending { IfOk result (λ owns. IsAscending owns.items) }
    ensures kept { IsLibrary library.now }
{
    let origin = Origin::of(library, ratio, tile);
    let rows = between(dots, origin.m, origin.m + library.height());
    among(alloc, rows, origin, library.width())
}

// The dots in these rows of dimers.
fn between(dots: &[Dot], top: u32, bottom: u32) -> &[Dot]
    requires { IsAscending dots.now }
    ensures same { (dot : Dot) →
        Contains result.now dot ↔ (Contains dots.now dot × (top ≤ dot.m) × (dot.m < bottom)) }
    ensures ascending { IsAscending result.now }
{
    let first = dots.partition_point(|dot| dot.m < top);
    let rest = &dots[first..];
    let count = rest.partition_point(|dot| dot.m < bottom);
    &rest[..count]
}

// Of the dots in a tile's rows, those that stand among its dimers, as a form of that tile would
// have them.
fn among(alloc: Global, rows: &[Dot], origin: Origin, width: u32) -> Result<Vec<Dot>, NoMemory>
    requires near { origin.n + width < 2 ^ 32 }
    requires below { All (λ dot. origin.m ≤ dot.m) rows.now }
    ensures { IfOk result (λ owns. owns.items ≡
        map (back_by origin.n origin.m) (filter (is_among origin.n width) rows.now)) }
{
    let right = origin.n + width;
    let mut owns = Vec::new(alloc);
    for dot in rows {
        if origin.n <= dot.n && dot.n < right {
            owns.push(origin.moved_back(*dot))?;
        }
    }
    Ok(owns)
}
