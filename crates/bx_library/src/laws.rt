//! Laws about the definitions alone, each the clause of a function with an empty body. Nothing here
//! runs.
ghost use Rattle.std.specs.Prelude.{◌≡◌, ◌↔◌, ℕ, List, Result};
ghost use Rattle.std.specs.declared.cmp.Ordering.TheVariants.{Less, Equal};
ghost use Rattle.bx_library.specs.declared.dot.Dot.{Dot};
ghost use Rattle.bx_library.specs.declared.fault.LibraryFault.{LibraryFault};
ghost use Rattle.bx_library.specs.Dots.{IsBefore, IsAscending, HaveSameDots, dot_cmp};
ghost use Rattle.bx_library.specs.Readings.{Reads};
ghost use Rattle.bx_library.specs.Tiles.{Tiles};

/// The order of dots is one and the same, whichever way it is told, and it is a strict one in which
/// of two dots that differ one stands before the other.
pub fn dots_have_one_order()
    ensures before { (a b : Dot) → (dot_cmp a b ≡ Less) ↔ IsBefore a b }
    ensures equal { (a b : Dot) → (dot_cmp a b ≡ Equal) ↔ (a ≡ b) }
    ensures itself { (a : Dot) → IsBefore a a → ⊥ }
    ensures goes_on { (a b c : Dot) → IsBefore a b → IsBefore b c → IsBefore a c }
{}

/// Dots in order are known by their set.
pub fn a_set_of_dots_has_one_order()
    ensures { (a b : List Dot) → IsAscending a → IsAscending b → HaveSameDots a b → a ≡ b }
{}

/// Bytes give one library, or one fault.
pub fn bytes_give_one_thing()
    ensures { (bytes : List ℕ) (r s : Result Tiles LibraryFault) → Reads bytes r → Reads bytes s →
        r ≡ s }
{}

/// Bytes give a library, or they have a first fault.
pub fn bytes_give_a_library_or_a_fault()
    ensures { (bytes : List ℕ) → (result : Result Tiles LibraryFault) × Reads bytes result }
{}
