//! What is found passes the judgement of anybody who reads it back. Nothing here runs.
ghost use Rattle.std.specs.Prelude.{◌≡◌, true};
ghost use Rattle.bx_cert.specs.Certs.{Certificate};
ghost use Rattle.bx_cert.specs.Texts.{IsTextOf as IsTextOfCert};
ghost use Rattle.bx_grid.specs.declared.ratio.Ratio.{Ratio};
ghost use Rattle.bx_layout.specs.Grids.{FormGrid, IsSound};
ghost use Rattle.bx_library.specs.Tiles.{Tiles, IsLibrary};
ghost use Rattle.bx_lines.specs.Lines.{ended};
ghost use Rattle.bx_siqad.specs.Designs.{Drawing};
ghost use Rattle.bx_siqad.specs.Texts.{IsTextOf};
ghost use Rattle.bx_syntax.specs.Parts.{ModuleTree};
ghost use Rattle.bx_verify.specs.Failing.{NoneFails};
ghost use Rattle.bx_verilog.specs.Formulas.{Text};
ghost use Rattle.bx_engine.specs.declared.status.Status.TheVariants.{Done, Minimal};
ghost use Rattle.bx_engine.specs.Answers.{Answer, IsReply, reply};
ghost use Rattle.bx_engine.specs.Grids.{grid_text};
ghost use Rattle.bx_engine.specs.Jobs.{extracts, verifies};
ghost use Rattle.bx_engine.specs.ReadBack.{AreReadBack};
ghost use Rattle.bx_engine.specs.Tasks.{Task, Inputs};
ghost use Rattle.bx_engine.specs.Texts.{network_of};
ghost use Rattle.bx_engine.specs.Verdicts.{minimal_line};
ghost use Rattle.bx_engine.specs.Worth.{IsFound};

/// Nothing fails of the design and the certificate of a layout that was found. So whoever has them judged is told that its
/// ratio is minimal within the limits of the search, and is told nothing else.
pub fn what_is_found_is_verified()
    ensures nothing_fails { (task : Task) (m : ModuleTree) (lib : Tiles) (ratio : Ratio)
        (design cert said : Text) → IsFound task m lib ratio design cert said → IsLibrary lib
        → (drawing : Drawing) (certificate : Certificate) → IsTextOf drawing design
        → IsTextOfCert certificate cert → NoneFails (network_of m) lib drawing certificate }
    ensures minimal { (task : Task) (m : ModuleTree) (lib : Tiles) (ratio : Ratio)
        (design cert said : Text) → IsFound task m lib ratio design cert said
        → (inputs : Inputs) → AreReadBack inputs m lib design cert
        → (net book drawn kept : Text) → IsReply (verifies net book drawn kept) inputs
        (reply (Minimal ratio) (ended (minimal_line ratio task.limits))) }
    ensures nothing_else { (task : Task) (m : ModuleTree) (lib : Tiles) (ratio : Ratio)
        (design cert said : Text) → IsFound task m lib ratio design cert said
        → (inputs : Inputs) → AreReadBack inputs m lib design cert
        → (net book drawn kept : Text) (answer : Answer)
        → IsReply (verifies net book drawn kept) inputs answer
        → answer ≡ reply (Minimal ratio) (ended (minimal_line ratio task.limits)) }
{}

/// And whoever has the dots of the design cut is told a grid that is sound.
pub fn what_is_found_is_extracted()
    ensures { (task : Task) (m : ModuleTree) (lib : Tiles) (ratio : Ratio)
        (design cert said : Text) → IsFound task m lib ratio design cert said
        → (inputs : Inputs) → AreReadBack inputs m lib design cert → (book drawn : Text)
        → (grid : FormGrid) × IsSound grid
        × IsReply (extracts book drawn) inputs (reply Done (grid_text grid true)) }
{}
