//! Laws of ports and names: they have the order of the text, and what is given is given once. Nothing
//! here runs.
ghost use Rattle.std.specs.Prelude.{◌≡◌, ◌≤◌, ◌+◌, Bool, [], ◌∷◌, codes};
ghost use Rattle.bx_syntax.specs.Parts.{ModuleTree};
ghost use Rattle.bx_verilog.specs.Equations.{Assignment, Gives, Module};
ghost use Rattle.bx_verilog.specs.Examples.{port_order};
ghost use Rattle.bx_verilog.specs.Faults.{HasPorts};
ghost use Rattle.bx_verilog.specs.Formulas.{Text};
ghost use Rattle.bx_verilog.specs.Mentions.{count, inputs, is_directed, is_header, names, outputs};

/// A module gives a name one value at most.
pub fn a_name_is_given_one_value()
    ensures { (m : Module) (a : Assignment) (n : Text) (b c : Bool) →
        Gives m a n b → Gives m a n c → b ≡ c }
{}

/// Where the ports are good, a name that stands in the header or has a direction does both, and once.
pub fn a_port_has_one_direction()
    ensures { (m : ModuleTree) → HasPorts m → (n : Text) →
        1 ≤ count is_header m n + count is_directed m n →
        (count is_header m n ≡ 1) × (count is_directed m n ≡ 1) }
{}

/// Ports have the order of the header, wherever their directions stand.
pub fn ports_have_the_order_of_the_header()
    ensures inputs { inputs port_order ≡ codes "b" ∷ codes "a" ∷ [] }
    ensures outputs { outputs port_order ≡ codes "y" ∷ [] }
{}

/// Names are numbered where they stand first, a bare wire's too.
pub fn names_have_the_order_of_the_text()
    ensures { names port_order ≡
        codes "b" ∷ codes "a" ∷ codes "y" ∷ codes "w" ∷ codes "q" ∷ codes "p" ∷ [] }
{}
