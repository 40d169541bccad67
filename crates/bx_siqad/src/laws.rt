//! Laws about the definitions alone, each the clause of a function with an empty body. Nothing here
//! runs.
ghost use Rattle.std.specs.Prelude.{◌≡◌, ◌⊎◌, ℕ, List};
ghost use Rattle.bx_grid.specs.declared.ratio.TheConstants.{MOST_LIMIT};
ghost use Rattle.bx_lines.specs.Lines.{IsFirstBadLine};
ghost use Rattle.bx_siqad.specs.Designs.{Drawing, IsDrawing};
ghost use Rattle.bx_siqad.specs.Texts.{design_text, IsTextOf, IsDesignText};

/// A design has one text, and bytes are the text of one design at most.
pub fn a_design_has_one_text()
    ensures text { (drawing : Drawing) → IsDrawing drawing
        → IsTextOf drawing (design_text drawing) }
    ensures one_text { (drawing : Drawing) (x y : List ℕ) → IsTextOf drawing x → IsTextOf drawing y
        → x ≡ y }
    ensures one_design { (bytes : List ℕ) (a b : Drawing) → IsTextOf a bytes → IsTextOf b bytes
        → a ≡ b }
{}

/// Bytes have one first bad line at most, and none where they are the text of a design.
pub fn a_text_of_a_design_has_no_bad_line()
    ensures one { (bytes : List ℕ) (j k : ℕ) → IsFirstBadLine IsDesignText bytes j
        → IsFirstBadLine IsDesignText bytes k → j ≡ k }
    ensures none { (bytes : List ℕ) (k : ℕ) → IsDesignText bytes
        → IsFirstBadLine IsDesignText bytes k → ⊥ }
{}

/// Bytes are the text of a design, or they have a first bad line.
pub fn bytes_are_a_design_or_have_a_bad_line()
    ensures { (bytes : List ℕ) → IsDesignText bytes
        ⊎ ((k : ℕ) × IsFirstBadLine IsDesignText bytes k) }
{}

/// The most that a side of a design is.
pub fn the_sides_of_a_design()
    ensures { MOST_LIMIT ≡ 144 }
{}
