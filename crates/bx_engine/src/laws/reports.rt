//! What is said can be read back: the report of a layout tells one layout, a refusal names one fault, and none is
//! the other. Nothing here runs.
ghost use Rattle.std.specs.Prelude.{◌≡◌, List, Option, Some};
ghost use Rattle.bx_cert.specs.Certs.{Certificate};
ghost use Rattle.bx_cert.specs.declared.parts.CertLast.{CertLast};
ghost use Rattle.bx_design.specs.declared.solution.LaidOut.{LaidOut};
ghost use Rattle.bx_library.specs.Tiles.{Tiles};
ghost use Rattle.bx_logic.specs.Nets.{Netlist};
ghost use Rattle.bx_network.specs.Networks.{Network};
ghost use Rattle.bx_says.specs.Reports.{IsReportable, report_of};
ghost use Rattle.bx_syntax.specs.Parts.{ModuleTree};
ghost use Rattle.bx_verilog.specs.Elaboration.{net_of};
ghost use Rattle.bx_verilog.specs.Formulas.{Text};
ghost use Rattle.bx_verilog.specs.declared.fault.NetFault.{NetFault};
ghost use Rattle.bx_engine.specs.declared.status.InputFault.TheVariants.{Net};
ghost use Rattle.bx_engine.specs.Answers.{Solves};
ghost use Rattle.bx_engine.specs.Said.{IsPlainFault, search_text, refusal_text, input_fault_text};
ghost use Rattle.bx_engine.specs.Tasks.{Task, IsTask};
ghost use Rattle.bx_engine.specs.Texts.{IsTaken, network_of};

/// Each report of a layout is one that its text can tell from any other: its names are plain, and its ports stand on
/// tiles.
pub fn what_is_reported_can_be_told_apart()
    ensures { (words : List Text) (task : Task) (text : Text) (m : ModuleTree)
        (lib : Tiles) (cert : Certificate) (laid : LaidOut)
        → IsTask words task → IsTaken text m → Solves task m lib cert (Some laid)
        → IsReportable (report_of (net_of m) (network_of m) laid.layout.places laid.grid) }
{}

/// Refusals of modules for faults of their nets, with the same line, name the same fault where the names
/// are plain.
pub fn a_refusal_of_a_net_names_one_fault()
    ensures { (f g : NetFault) → IsPlainFault f → IsPlainFault g
        → refusal_text (input_fault_text (Net f)) ≡ refusal_text (input_fault_text (Net g))
        → f ≡ g }
{}

/// No refusal has the text of a report, however the search ended.
pub fn a_refusal_is_no_report()
    ensures { (fault : Text) (net : Netlist) (N : Network) (last : CertLast)
        (found : Option LaidOut)
        → refusal_text fault ≡ search_text net N last found → ⊥ }
{}
