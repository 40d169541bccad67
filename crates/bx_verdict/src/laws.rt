//! Laws about the definitions alone, each the clause of a function with an empty body, so that a reader
//! can trust what the contracts say. Nothing here runs.
ghost use Rattle.std.specs.Prelude.{◌≡◌, ℕ, List, Bool};
ghost use Rattle.bx_cnf.specs.Formulas.{IsFormula};
ghost use Rattle.bx_decode.specs.Meaning.{AreTrue, Means};
ghost use Rattle.bx_encode.specs.Formula.{formula};
ghost use Rattle.bx_grid.specs.declared.ratio.Ratio.{Ratio};
ghost use Rattle.bx_grid.specs.Tiles.{IsGrid};
ghost use Rattle.bx_layout.specs.declared.layout.Layout.{Layout};
ghost use Rattle.bx_layout.specs.Legal.{IsLegal};
ghost use Rattle.bx_layout.specs.Permits.{PermitTest};
ghost use Rattle.bx_network.specs.Networks.{Network, IsNetwork};
ghost use Rattle.bx_proof.specs.declared.refutation.Refutation.{Refutation};
ghost use Rattle.bx_refutes.specs.Refutations.{IsRefutedBy};
ghost use Rattle.bx_verdict.specs.Settling.{AreSettled};
ghost use Rattle.bx_verdict.specs.Verdicts.{Asks, IsVerdict};
ghost use Rattle.bx_verdict.specs.declared.settled.Last.{Last};
ghost use Rattle.bx_verdict.specs.declared.verdict.Ended.{Ended};
ghost use Rattle.bx_verdict.specs.declared.verdict.Ended.TheVariants.{Refuted, Found};

/// A verdict that refutes a ratio has a refutation that does.
pub fn a_verdict_refutes()
    ensures { (N : Network) (permit : PermitTest) (r : Ratio) (budget : ℕ) (proof : Refutation)
        → IsFormula (formula N permit r) → IsVerdict N permit r budget (Refuted proof)
        → IsRefutedBy N permit r proof }
{}

/// The bits of a ratio that is found are true, and mean a layout of that ratio that is legal under the permit.
pub fn found_bits_mean_a_legal_layout()
    ensures true_bits { (N : Network) (permit : PermitTest) (r : Ratio) (budget : ℕ)
        (bits : List Bool)
        → IsFormula (formula N permit r) → IsVerdict N permit r budget (Found bits)
        → AreTrue N permit r bits }
    ensures legal { (N : Network) (permit : PermitTest) (r : Ratio) (budget : ℕ) (bits : List Bool)
        → IsNetwork N → IsGrid r
        → IsFormula (formula N permit r) → IsVerdict N permit r budget (Found bits)
        → (L : Layout) × (L.ratio ≡ r) × Means N r bits L × IsLegal N permit L }
{}

/// A ratio has one verdict.
pub fn a_ratio_has_one_verdict()
    ensures { (N : Network) (permit : PermitTest) (r : Ratio) (budget : ℕ) (one other : Ended)
        → IsVerdict N permit r budget one → IsVerdict N permit r budget other → one ≡ other }
{}

/// The search of a verdict asks so often whether it is wanted, and no other number of times.
pub fn a_verdict_asks_so_often()
    ensures { (N : Network) (permit : PermitTest) (r : Ratio) (budget : ℕ) (end : Ended) (one other : ℕ)
        → Asks N permit r budget end one → Asks N permit r budget end other → one ≡ other }
{}

/// So much is known of ratios in order, and no other refutations and no other end.
pub fn ratios_are_settled_in_one_way()
    ensures { (N : Network) (permit : PermitTest) (budget : ℕ) (ratios : List Ratio)
        (proofs others : List Refutation) (last end : Last)
        → AreSettled N permit budget ratios proofs last
        → AreSettled N permit budget ratios others end
        → (proofs ≡ others) × (last ≡ end) }
{}
