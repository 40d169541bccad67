//! What the answer to a module that is taken is worth. Nothing here runs.
ghost use Rattle.std.specs.Prelude.{ℕ, List, Option, option_map};
ghost use Rattle.bx_cert.specs.Certs.{Certificate};
ghost use Rattle.bx_cert.specs.Texts.{cert_text};
ghost use Rattle.bx_design.specs.declared.solution.LaidOut.{LaidOut};
ghost use Rattle.bx_dots.specs.Permits.{permit_of};
ghost use Rattle.bx_grid.specs.Orders.{IsWithin, Precedes};
ghost use Rattle.bx_grid.specs.declared.ratio.Ratio.{Ratio};
ghost use Rattle.bx_layout.specs.Legal.{IsLegal};
ghost use Rattle.bx_layout.specs.declared.layout.Layout.{Layout};
ghost use Rattle.bx_library.specs.Tiles.{Tiles};
ghost use Rattle.bx_siqad.specs.Designs.{Drawing};
ghost use Rattle.bx_siqad.specs.Texts.{design_text};
ghost use Rattle.bx_syntax.specs.Parts.{ModuleTree};
ghost use Rattle.bx_verilog.specs.Elaboration.{net_of};
ghost use Rattle.bx_verilog.specs.Equations.{module_of};
ghost use Rattle.bx_verilog.specs.Formulas.{Text};
ghost use Rattle.bx_engine.specs.Answers.{IsDrawn, Solves};
ghost use Rattle.bx_engine.specs.Said.{search_text};
ghost use Rattle.bx_engine.specs.Tasks.{Task, Inputs, IsTask};
ghost use Rattle.bx_engine.specs.Texts.{IsTaken, AreTaken, network_of};
ghost use Rattle.bx_engine.specs.Worth.{ComputesModule, IsFound, IsLeftUndecided, IsNoneWithin, IsWorth};

/// The network of a module that is taken has its ports, and computes it.
pub fn a_network_computes_its_module()
    ensures { (text : Text) (m : ModuleTree) → IsTaken text m
        → ComputesModule (net_of m) (module_of m) (network_of m) }
{}

/// Whatever came of the search, what is written and said of it is worth what it says.
pub fn an_answer_is_worth_what_it_says()
    ensures { (words : List Text) (task : Task) (inputs : Inputs) (m : ModuleTree) (lib : Tiles)
        (cert : Certificate) (found : Option LaidOut) (design : Option Drawing)
        → IsTask words task → AreTaken inputs m lib → Solves task m lib cert found
        → IsDrawn lib found design
        → IsWorth task m lib cert.last (option_map design_text design) (cert_text cert)
        (search_text (net_of m) (network_of m) cert.last found) }
{}

/// What was found is the least: no layout of forms of the library, within the limits, of less area, or of the same area
/// and less width, is legal. So it is with a ratio that is left undecided; and where there is none within the limits,
/// none is legal.
pub fn what_is_found_is_least()
    ensures found { (task : Task) (m : ModuleTree) (lib : Tiles) (ratio : Ratio)
        (design cert said : Text) → IsFound task m lib ratio design cert said
        → (L : Layout) → IsWithin task.limits L.ratio → Precedes L.ratio ratio
        → IsLegal (network_of m) (permit_of lib) L → ⊥ }
    ensures undecided { (task : Task) (m : ModuleTree) (lib : Tiles) (ratio : Ratio) (spent : ℕ)
        (cert said : Text) → IsLeftUndecided task m lib ratio spent cert said
        → (L : Layout) → IsWithin task.limits L.ratio → Precedes L.ratio ratio
        → IsLegal (network_of m) (permit_of lib) L → ⊥ }
    ensures none_within { (task : Task) (m : ModuleTree) (lib : Tiles) (cert said : Text)
        → IsNoneWithin task m lib cert said
        → (L : Layout) → IsWithin task.limits L.ratio
        → IsLegal (network_of m) (permit_of lib) L → ⊥ }
{}
