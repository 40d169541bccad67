//! What count proofs mean, and what the words of their definitions mean. Nothing here runs.
ghost use Rattle.std.specs.Prelude.{◌≡◌, ◌⊎◌, ◌↔◌, ℕ, ◌+◌, ◌<◌, Option};
ghost use Rattle.bx_grid.specs.declared.count.CountProof.{CountProof};
ghost use Rattle.bx_grid.specs.declared.ratio.Ratio.{Ratio};
ghost use Rattle.bx_grid.specs.Tiles.{IsGrid};
ghost use Rattle.bx_forms.specs.declared.kind.Kind.{Kind};
ghost use Rattle.bx_network.specs.Networks.{Network, IsNetwork};
ghost use Rattle.bx_network.specs.Windows.{MayStand};
ghost use Rattle.bx_bounds.specs.Ancestors.{IsAncestor};
ghost use Rattle.bx_bounds.specs.Borders.{LeadsFrom};
ghost use Rattle.bx_layout.specs.Permits.{PermitTest};
ghost use Rattle.bx_layout.specs.Legal.{LacksLayout};
ghost use Rattle.bx_bounds.specs.Numbers.{IsCount};
ghost use Rattle.bx_bounds.specs.Precedes.{Precedes, IsFirst};
ghost use Rattle.bx_bounds.specs.Refutes.{borders_between, Refutes};
ghost use Rattle.bx_bounds.specs.Windows.{IsBetween};

/// Where a count proof refutes a ratio, no layout of that ratio is legal, under any permit.
pub fn a_refuted_ratio_has_no_layout()
    ensures { (N : Network) (ratio : Ratio) (proof : CountProof) → IsNetwork N →
        Refutes N ratio proof → (permit : PermitTest) → LacksLayout N permit ratio }
{}

/// From each row of a grid but the last, 2w - 1 borders lead to the next.
pub fn borders_lie_between_two_rows()
    ensures { (ratio : Ratio) (row : ℕ) → IsGrid ratio → row + 1 < ratio.h →
        IsCount (LeadsFrom ratio row) (borders_between ratio) }
{}

/// No node is its own ancestor, and so none is its own descendant.
pub fn no_node_is_its_own_ancestor()
    ensures { (N : Network) (v : ℕ) → IsNetwork N → ¬ IsAncestor N.edges v v }
{}

/// Of two different count proofs exactly one comes before the other, so there is one first proof at
/// most.
pub fn count_proofs_have_one_order()
    ensures some { (c d : CountProof) → (c ≡ d) ⊎ (Precedes c d ⊎ Precedes d c) }
    ensures once { (c d : CountProof) → Precedes c d → ¬ Precedes d c }
{}

/// Counting is decidable: of each network and each ratio there is a first count proof, or there is
/// none.
pub fn there_is_a_first_count_proof_or_none()
    ensures { (N : Network) (ratio : Ratio) → IsNetwork N →
        (found : Option CountProof) × IsFirst (Refutes N ratio) found }
{}

/// A node may stand exactly in the rows that are not before its earliest row and not behind its
/// latest, where there are more rows than its longest path below it has edges: else it has no
/// latest row.
pub fn a_window_lies_between_the_earliest_and_the_latest_row()
    ensures { (kind : Kind) (down up row height : ℕ) → up < height →
        MayStand kind down up row height ↔ IsBetween kind down up row height }
{}
