//! Which forms stand on the tiles of a grid, and the least of them that isn't in a set.
ghost use Rattle.std.specs.Prelude.{◌≡◌, ◌↔◌, ◌⊎◌, ℕ, Some, Contains, MatchOption};
ghost use Rattle.bx_forms.specs.FormSets.{IsIn};
ghost use Rattle.bx_quick.specs.Faults.{IsFirstMissingIn, AreAllIn};

use crate::operation::form;
use bx_forms::{Form, FormSet};

// How many forms there are.
const FORMS: u8 = 28;

// The least form of these tiles that isn't in the set, if there is one.
pub fn first_missing(tiles: &[Option<Form>], forms: FormSet) -> Option<Form>
    ensures { MatchOption result (AreAllIn tiles.now forms) (IsFirstMissingIn tiles.now forms) }
{
    let used = used_forms(tiles);
    for number in 0..FORMS {
        let form = form(number);
        if used.has(form) && !forms.has(form) {
            return Some(form);
        }
    }
    None
}

// The forms that stand on these tiles.
fn used_forms(tiles: &[Option<Form>]) -> FormSet
    ensures { (form : ℕ) → IsIn result form ↔ Contains tiles.now (Some form) }
{
    let mut used = FormSet::none();
    for tile in tiles {
        used = with_tile(used, tile);
    }
    used
}

// The set with the form of this tile, if it has one.
fn with_tile(used: FormSet, tile: &Option<Form>) -> FormSet
    ensures { (form : ℕ) → IsIn result form ↔ (IsIn used form ⊎ (tile.now ≡ Some form)) }
{
    match tile {
        Some(form) => used.with(*form),
        None => used,
    }
}
