//! Laws of the definitions that the contracts cite. Nothing here runs.
ghost use Rattle.std.specs.Prelude.{◌≡◌, ◌↔◌, ◌≤◌, Bool, List, map, Contains};
ghost use Rattle.std.specs.List.{AllZip};
ghost use Rattle.bx_logic.specs.Nets.{DependsOn, IsAcyclic, IsNet};
ghost use Rattle.bx_logic.specs.Behaviours.{SameBehaviour, net_behaviour};
ghost use Rattle.bx_logic.specs.Values.{IsNetValuation, AreOutputValues, value_of};
ghost use Rattle.bx_syntax.specs.Parts.{ModuleTree};
ghost use Rattle.bx_syntax.specs.Texts.{IsTree};
ghost use Rattle.bx_verilog.specs.Elaboration.{Meaning, Elaborates, net_of};
ghost use Rattle.bx_verilog.specs.Equations.{Assignment, Gives, module_behaviour, module_of};
ghost use Rattle.bx_verilog.specs.Faults.{IsAccepted, IsDriven, IsFree, IsOnCycle};
ghost use Rattle.bx_verilog.specs.Formulas.{Text};
ghost use Rattle.bx_verilog.specs.Mentions.{count, inputs, is_driven, names, number, outputs};

pub mod existence;
pub mod expressions;
pub mod ports;

/// A module has one meaning: a net, or a first fault.
pub fn one_meaning()
    ensures { (m : ModuleTree) (r s : Meaning) → Elaborates m r → Elaborates m s → r ≡ s }
{}

/// A name depends on itself by the equations of a module exactly where its net does, and no name does
/// exactly where no net does.
pub fn a_cycle_of_names_is_one_of_nets()
    ensures names { (m : ModuleTree) → IsDriven m → (n : Text) → Contains (names m) n →
        IsOnCycle m n ↔ DependsOn (net_of m).drivers (number m n) (number m n) }
    ensures none { (m : ModuleTree) → IsDriven m →
        IsFree (IsOnCycle m) ↔ IsAcyclic (net_of m).drivers }
{}

/// The lists of a module of some text, in which nothing is wrong, make a net.
pub fn an_accepted_module_makes_a_net()
    ensures { (m : ModuleTree) → IsTree m → IsAccepted m → IsNet (net_of m) }
{}

/// A module of some text, in which nothing is wrong, and its net have the same behaviour: whatever the
/// values of the inputs are, each gives the outputs the values that the other gives them.
pub fn a_net_has_the_behaviour_of_its_module()
    ensures { (m : ModuleTree) → IsTree m → IsAccepted m →
        SameBehaviour (net_behaviour (net_of m)) (module_behaviour (module_of m)) }
{}

/// The net of a module has the values of the module's equations: whatever the values of the inputs are,
/// each name that something drives, and so each output, has by the equations the value of its net.
pub fn a_net_computes_its_module()
    ensures names { (m : ModuleTree) → IsAccepted m → (a : Assignment) (values : List Bool) →
        IsNetValuation (net_of m).drivers (map a (inputs m)) values → (n : Text) →
        1 ≤ count is_driven m n → Gives (module_of m) a n (value_of values (number m n)) }
    ensures values { (m : ModuleTree) → IsAccepted m → (a : Assignment) (values : List Bool) →
        IsNetValuation (net_of m).drivers (map a (inputs m)) values → (n : Text) →
        Contains (outputs m) n → Gives (module_of m) a n (value_of values (number m n)) }
    // What a net answers are the values of the outputs, in order. That no name depends on itself is no
    // premise here: there are such values only where no net does.
    ensures outputs { (m : ModuleTree) → IsDriven m → (a : Assignment) (outs : List Bool) →
        AreOutputValues (net_of m) (map a (inputs m)) outs →
        AllZip (Gives (module_of m) a) (outputs m) outs }
{}
