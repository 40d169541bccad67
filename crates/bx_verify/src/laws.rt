//! Laws about the definitions alone, each the clause of a function with an empty body. Nothing here runs.
ghost use Rattle.std.specs.Prelude.{◌≡◌, ◌↔◌, ℕ};
ghost use Rattle.bx_cert.specs.Certs.{Certificate};
ghost use Rattle.bx_grid.specs.declared.ratio.Ratio.{Ratio};
ghost use Rattle.bx_layout.specs.Permits.{Allows};
ghost use Rattle.bx_library.specs.Tiles.{Tiles, IsOffered};
ghost use Rattle.bx_network.specs.Networks.{Network};
ghost use Rattle.bx_siqad.specs.Designs.{Drawing};
ghost use Rattle.bx_verify.specs.Answers.{IsVerdict};
ghost use Rattle.bx_verify.specs.Failing.{IsFirstToFail};
ghost use Rattle.bx_dots.specs.Permits.{permit_of};
ghost use Rattle.bx_verify.specs.declared.verdict.Part.{Part};
ghost use Rattle.bx_verify.specs.declared.verdict.Verdict.{Verdict};

/// One part at most is the first that fails, and it fails with one number.
pub fn one_part_is_the_first_to_fail()
    ensures { (N : Network) (lib : Tiles) (design : Drawing) (cert : Certificate)
        (p q : Part) (j k : ℕ) → IsFirstToFail N lib design cert p j
        → IsFirstToFail N lib design cert q k → (p ≡ q) × (j ≡ k) }
{}

/// A design and its certificate have one verdict.
pub fn there_is_one_verdict()
    ensures { (N : Network) (lib : Tiles) (design : Drawing) (cert : Certificate)
        (one other : Verdict) → IsVerdict N lib design cert one
        → IsVerdict N lib design cert other → one ≡ other }
{}

/// The permit of a library allows the forms that it offers, and no others.
pub fn the_permit_of_a_library_is_exact()
    ensures { (lib : Tiles) (r : Ratio) (t form : ℕ)
        → Allows (permit_of lib) r t form ↔ IsOffered lib form }
{}
