//! That a formula is one, and how large it is at most.
ghost use Rattle.std.specs.Prelude.{◌≤◌, length};
ghost use Rattle.bx_cnf.specs.Formulas.{IsFormula};
ghost use Rattle.bx_grid.specs.declared.ratio.Ratio.{Ratio};
ghost use Rattle.bx_grid.specs.Tiles.{tile_count, IsGrid};
ghost use Rattle.bx_layout.specs.Permits.{PermitTest};
ghost use Rattle.bx_network.specs.Networks.{Network, IsNetwork};
ghost use Rattle.bx_encode.specs.declared.numbers.TheConstants.{MOST_NODES, MOST_AREA};
ghost use Rattle.bx_encode.specs.Formula.{formula};
ghost use Rattle.bx_encode.specs.Sizes.{IsFrame, most_clauses};

/// Within the limits of `encode` the formula of a ratio is a formula: each of its clauses ascends over its variables,
/// and both are few enough for their numbers. So `encode` always has room for one clause more.
pub fn a_formula_within_the_limits_is_a_formula()
    ensures frame { (N : Network) (r : Ratio) → IsNetwork N → IsGrid r
        → length N.nodes ≤ MOST_NODES → tile_count r ≤ MOST_AREA → IsFrame N r }
    ensures formed { (N : Network) (permit : PermitTest) (r : Ratio)
        → IsFrame N r → IsFormula (formula N permit r) }
    ensures few { (N : Network) (permit : PermitTest) (r : Ratio)
        → IsFrame N r → length (formula N permit r).clauses ≤ most_clauses }
{}
