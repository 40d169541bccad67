//! How lists grow that were made at their counted size. A push onto a full list doubles it, so the first
//! clause that is learned would double what is kept of millions; an eighth more keeps all of it, formula
//! and lists, within 40 bytes a clause, and each item is still moved a constant number of times.
ghost use Rattle.std.specs.Prelude.{◌≡◌, ◌++◌, ◌∷◌, [], OnOk};

use bx_logic::NoMemory;

/// Puts an item behind those of a list, which grows by an eighth where it is full.
///
/// # Errors
///
/// `NoMemory`.
pub(crate) fn push_tight<T: Drop>(list: &mut Vec<T>, item: T) -> Result<(), NoMemory>
    ensures { OnOk result (list.new.items ≡ list.old.items ++ item ∷ []) }
{
    if list.len() == list.capacity() {
        list.reserve_exact(list.len() / 8 + 4)?;
    }
    list.push(item)?;
    Ok(())
}
