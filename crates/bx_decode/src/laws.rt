//! Laws about the definitions alone, each the clause of a function with an empty body, so that a reader
//! can trust what the contracts say. Nothing here runs.
ghost use Rattle.std.specs.Prelude.{◌≡◌, ◌↔◌, Bool, List, ℕ};
ghost use Rattle.bx_cnf.specs.Literals.{value_of};
ghost use Rattle.bx_decode.specs.Meaning.{AreTrue, Means};
ghost use Rattle.bx_encode.specs.Bits.{AreBitsOf};
ghost use Rattle.bx_encode.specs.Variables.{number};
ghost use Rattle.bx_encode.specs.declared.variable.Variable.TheVariants.{NodeOn, EdgeOn};
ghost use Rattle.bx_grid.specs.declared.ratio.Ratio.{Ratio};
ghost use Rattle.bx_grid.specs.Tiles.{IsGrid};
ghost use Rattle.bx_layout.specs.declared.layout.Layout.{Layout};
ghost use Rattle.bx_layout.specs.Legal.{IsLegal};
ghost use Rattle.bx_layout.specs.Permits.{PermitTest};
ghost use Rattle.bx_network.specs.Networks.{Network, IsNetwork};

/// A layout that true bits mean is legal, under the permit of their formula.
pub fn true_bits_are_a_legal_layout()
    ensures { (N : Network) (permit : PermitTest) (r : Ratio) (bits : List Bool) (L : Layout)
        → IsNetwork N → IsGrid r
        → AreTrue N permit r bits → Means N r bits L → IsLegal N permit L }
{}

/// True bits mean a layout, and no bits mean two.
pub fn true_bits_mean_one_layout()
    ensures some { (N : Network) (permit : PermitTest) (r : Ratio) (bits : List Bool)
        → AreTrue N permit r bits → (L : Layout) × Means N r bits L }
    ensures one { (N : Network) (r : Ratio) (bits : List Bool) (L M : Layout)
        → Means N r bits L → Means N r bits M → L ≡ M }
{}

/// The bits of a legal layout mean that layout and no other: decoding them gives it back.
pub fn the_bits_of_a_layout_mean_it()
    ensures own { (N : Network) (permit : PermitTest) (L : Layout) (bits : List Bool)
        → IsLegal N permit L → AreBitsOf N L bits → Means N L.ratio bits L }
    ensures no_other { (N : Network) (permit : PermitTest) (L M : Layout) (bits : List Bool)
        → IsLegal N permit L → AreBitsOf N L bits → Means N L.ratio bits M → M ≡ L }
{}

/// Bits that agree on where nodes stand and on which border an edge is mean the same, whatever they say of
/// taken tiles and of used borders.
pub fn taken_tiles_and_used_borders_mean_nothing()
    ensures { (N : Network) (r : Ratio) (bits other : List Bool) (L : Layout)
        → ((v t : ℕ) → value_of bits (number N r (NodeOn v t))
        ≡ value_of other (number N r (NodeOn v t)))
        → ((e b : ℕ) → value_of bits (number N r (EdgeOn e b))
        ≡ value_of other (number N r (EdgeOn e b)))
        → Means N r bits L → Means N r other L }
{}

/// The formula of a ratio has a solution exactly where a layout of that ratio is legal under its permit.
pub fn a_formula_has_a_solution_exactly_where_a_legal_layout_exists()
    ensures { (N : Network) (permit : PermitTest) (r : Ratio) → IsNetwork N → IsGrid r
        → ((bits : List Bool) × AreTrue N permit r bits)
        ↔ ((L : Layout) × (L.ratio ≡ r) × IsLegal N permit L) }
{}
