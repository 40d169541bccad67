//! The numbers of the variables.
ghost use Rattle.std.specs.Prelude.{◌≡◌, ℕ, ◌≤◌};
ghost use Rattle.bx_grid.specs.declared.ratio.Ratio.{Ratio};
ghost use Rattle.bx_network.specs.Networks.{Network};
ghost use Rattle.bx_encode.specs.Variables.{IsVariable, variable_count, number};
ghost use Rattle.bx_encode.specs.declared.variable.Variable.{Variable};

/// The numbers of the variables are those from 1 to their count, each once.
pub fn each_variable_has_a_number_of_its_own()
    ensures above { (N : Network) (r : Ratio) (x : Variable)
        → IsVariable N r x → 1 ≤ number N r x }
    ensures within { (N : Network) (r : Ratio) (x : Variable)
        → IsVariable N r x → number N r x ≤ variable_count N r }
    ensures once { (N : Network) (r : Ratio) (x y : Variable)
        → IsVariable N r x → IsVariable N r y → number N r x ≡ number N r y → x ≡ y }
    ensures all { (N : Network) (r : Ratio) (k : ℕ) → 1 ≤ k → k ≤ variable_count N r
        → (x : Variable) × IsVariable N r x × (number N r x ≡ k) }
{}
