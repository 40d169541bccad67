//! Laws that the definitions leave nothing out: each module means something, its inputs may have any
//! values, and each fault is the first of some module. Two examples show how names and nets are
//! numbered. Nothing here runs.
ghost use Rattle.std.specs.Prelude.{◌≡◌, Bool, List, Ok, codes, length, map};
ghost use Rattle.bx_syntax.specs.Parts.{ModuleTree};
ghost use Rattle.bx_syntax.specs.Texts.{IsTree};
ghost use Rattle.bx_verilog.specs.declared.fault.NetFault.TheVariants.{BadPort, NoOutput, TwoDrivers, NoDriver, Cycle};
ghost use Rattle.bx_verilog.specs.Elaboration.{Meaning, Elaborates};
ghost use Rattle.bx_verilog.specs.Equations.{Assignment};
ghost use Rattle.bx_verilog.specs.Examples.{bad_port, no_output, two_drivers, no_driver, cycle, cycle_of_wire, two_nots, two_nots_net};
ghost use Rattle.bx_verilog.specs.Faults.{HasPorts, IsFault};
ghost use Rattle.bx_verilog.specs.Mentions.{inputs};

/// Whatever bits the inputs are to have, one for each, some values of the names give them these.
pub fn inputs_may_have_any_values()
    ensures { (m : ModuleTree) → HasPorts m → (bits : List Bool) →
        length bits ≡ length (inputs m) → (a : Assignment) × (map a (inputs m) ≡ bits) }
{}

/// Each module is accepted and has a net, or has a first fault.
pub fn each_module_has_a_meaning()
    ensures { (m : ModuleTree) → (r : Meaning) × Elaborates m r }
{}

/// Each fault is the first of some module.
pub fn each_fault_comes()
    ensures bad_port { IsFault bad_port (BadPort (codes "a")) }
    ensures no_output { IsFault no_output NoOutput }
    ensures two_drivers { IsFault two_drivers (TwoDrivers (codes "y")) }
    ensures no_driver { IsFault no_driver (NoDriver (codes "k")) }
    ensures cycle { IsFault cycle (Cycle (codes "p")) }
{}

/// Names are numbered by first appearance, also that of a wire without a driver. Behind them come the nets
/// of the operators, operands before what joins them, and only once for all outputs of a `not`.
pub fn numbers_follow_the_text()
    // The example is a module of some text.
    ensures tree { IsTree two_nots }
    ensures net { Elaborates two_nots (Ok two_nots_net) }
    ensures cycle { IsFault cycle_of_wire (Cycle (codes "q")) }
{}
