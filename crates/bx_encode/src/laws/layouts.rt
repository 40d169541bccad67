//! What the formula of a ratio says of its layouts.
ghost use Rattle.std.specs.Prelude.{◌≡◌, Bool, List, length};
ghost use Rattle.bx_cnf.specs.Formulas.{AllTrue};
ghost use Rattle.bx_grid.specs.declared.ratio.Ratio.{Ratio};
ghost use Rattle.bx_layout.specs.declared.layout.Layout.{Layout};
ghost use Rattle.bx_layout.specs.Legal.{IsLegal};
ghost use Rattle.bx_layout.specs.Permits.{PermitTest};
ghost use Rattle.bx_network.specs.Networks.{Network, IsNetwork};
ghost use Rattle.bx_encode.specs.Bits.{AreBitsOf};
ghost use Rattle.bx_encode.specs.Formula.{formula};
ghost use Rattle.bx_encode.specs.Variables.{variable_count};

/// The bits of a layout make every clause of its ratio's formula true, under each permit under which the
/// layout is legal.
pub fn a_legal_layout_solves_its_formula()
    ensures { (N : Network) (permit : PermitTest) (L : Layout) (bits : List Bool)
        → IsNetwork N → IsLegal N permit L → AreBitsOf N L bits
        → AllTrue bits (formula N permit L.ratio).clauses }
{}

/// Each legal layout has bits. So where no bits make every clause of a ratio's formula true, no layout on that
/// ratio is legal under the permit.
pub fn no_legal_layout_is_lost()
    ensures bits { (N : Network) (permit : PermitTest) (L : Layout)
        → IsLegal N permit L → (bits : List Bool) × AreBitsOf N L bits }
    ensures none { (N : Network) (permit : PermitTest) (r : Ratio) → IsNetwork N
        → ((bits : List Bool) → length bits ≡ variable_count N r
        → AllTrue bits (formula N permit r).clauses → ⊥)
        → (L : Layout) → L.ratio ≡ r → IsLegal N permit L → ⊥ }
{}
