//! The assertions, so that each is proved once for all tests.

use std::process::Abort;

pub fn is_bool(rt: &impl Abort, found: bool, wanted: bool) {
    assert!(rt; found == wanted);
}

/// The same for the row of a table, by its place there.
pub fn is_bool_in_row(rt: &impl Abort, row: usize, found: bool, wanted: bool) {
    assert!(rt; found == wanted, "row {row}");
}

/// The same for the form with this number on a tile.
pub fn is_bool_with(rt: &impl Abort, tile: u32, form: u8, found: bool, wanted: bool) {
    assert!(rt; found == wanted, "form {form} on tile {tile}");
}
