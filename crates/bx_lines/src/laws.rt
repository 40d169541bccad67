//! Laws about the definitions alone, each the clause of a function with an empty body. Nothing here
//! runs.
ghost use Rattle.std.specs.Prelude.{◌≡◌, ◌<◌, ◌^◌, ℕ, List};
ghost use Rattle.bx_lines.specs.Lines.{text_of, IsFirstBadLine};
ghost use Rattle.bx_lines.specs.Decimals.{IsNumberAt};

/// Bytes have one first bad line at most.
pub fn there_is_one_first_bad_line()
    ensures { (lines : List (List ℕ)) (bytes : List ℕ) (j k : ℕ)
        → IsFirstBadLine (λ text. text ≡ text_of lines) bytes j
        → IsFirstBadLine (λ text. text ≡ text_of lines) bytes k → j ≡ k }
{}

/// A text has no bad line.
pub fn a_text_has_no_bad_line()
    ensures { (lines : List (List ℕ)) (k : ℕ)
        → IsFirstBadLine (λ text. text ≡ text_of lines) (text_of lines) k → ⊥ }
{}

/// There is one number at the front of bytes, and one rest behind it.
pub fn there_is_one_number_at_the_front()
    ensures { (bytes x y : List ℕ) (m n : ℕ) → m < 2 ^ 64 → n < 2 ^ 64 → IsNumberAt bytes m x
        → IsNumberAt bytes n y → (m ≡ n) × (x ≡ y) }
{}
