//! Laws about the definitions alone, each the clause of a function with an empty body. Nothing here
//! runs.
ghost use Rattle.std.specs.Prelude.{◌≡◌, ◌↔◌, ℕ, ◌<◌, ◌≤◌, Bool, List, [], ◌∷◌, length};
ghost use Rattle.bx_logic.specs.Values.{value_of};
ghost use Rattle.bx_logic.specs.Behaviours.{IsFunction};
ghost use Rattle.bx_forms.specs.declared.kind.Kind.{Kind};
ghost use Rattle.bx_forms.specs.declared.kind.Kind.TheVariants.{Input, Output, Not};
ghost use Rattle.bx_network.specs.Networks.{Network, IsNetwork, output_count};
ghost use Rattle.bx_network.specs.Values.{IsValuation, IsOnlyValuation, network_behaviour};
ghost use Rattle.bx_network.specs.Paths.{IsDown, IsUp};
ghost use Rattle.bx_network.specs.Windows.{MayStand, IsInWindow, EarliestFrom, LatestTo};
ghost use Rattle.bx_network.specs.Examples.{node, node_with, edge, inversion_with, ring, conjunction_at, shared_at, branching, branching_values};

/// For any values of the input ports the edges of a network have exactly one valuation.
pub fn a_network_has_one_valuation()
    ensures { (N : Network) (bits : List Bool) → IsNetwork N
        → (values : List Bool) × IsOnlyValuation N bits values }
{}

/// For each value of each input a network gives one value of each of its outputs.
pub fn a_network_gives_one_value_of_each_output()
    ensures { (inputs : ℕ) (N : Network) → IsNetwork N
        → IsFunction inputs (output_count N) (network_behaviour inputs N) }
{}

/// The longest paths to a node have one length, and so have those from it.
pub fn longest_paths_have_one_length()
    ensures down { (N : Network) (v d e : ℕ) → IsDown N v d → IsDown N v e → d ≡ e }
    ensures up { (N : Network) (v d e : ℕ) → IsUp N v d → IsUp N v e → d ≡ e }
{}

/// Each node of a network lies on a path from an input to an output.
pub fn every_node_lies_between()
    ensures down { (N : Network) (v : ℕ) → IsNetwork N → v < length N.nodes
        → (d : ℕ) × IsDown N v d }
    ensures up { (N : Network) (v : ℕ) → IsNetwork N → v < length N.nodes
        → (d : ℕ) × IsUp N v d }
{}

/// A row in which a node may stand is not before its earliest row, and not behind its latest. Where there
/// are more rows than a longest path from the node has edges, each row that is neither is one of them.
pub fn a_row_in_the_window_is_between_the_earliest_and_the_latest()
    ensures earliest { (kind : Kind) (down up row height a : ℕ)
        → MayStand kind down up row height → EarliestFrom kind down height a → a ≤ row }
    ensures latest { (kind : Kind) (down up row height b : ℕ)
        → MayStand kind down up row height → LatestTo kind up height b → row ≤ b }
    ensures between { (kind : Kind) (down up row height : ℕ) → up < height
        → ((a : ℕ) → EarliestFrom kind down height a → a ≤ row)
        → ((b : ℕ) → LatestTo kind up height b → row ≤ b)
        → MayStand kind down up row height }
{}

/// An input, a `not` and an output are a network where each leads to the next. Without the second edge,
/// with both in the other order, with both to the output, or with the second by a slot that `not` doesn't
/// have, they are none.
pub fn near_misses_of_an_inversion()
    ensures network { IsNetwork (inversion_with (edge 0 0 1 0 ∷ edge 1 0 2 0 ∷ [])) }
    ensures missing { IsNetwork (inversion_with (edge 0 0 1 0 ∷ [])) → ⊥ }
    ensures turned { IsNetwork (inversion_with (edge 1 0 2 0 ∷ edge 0 0 1 0 ∷ [])) → ⊥ }
    ensures passed { IsNetwork (inversion_with (edge 0 0 2 0 ∷ edge 1 0 2 0 ∷ [])) → ⊥ }
    ensures slot { IsNetwork (inversion_with (edge 0 0 1 0 ∷ edge 1 1 2 0 ∷ [])) → ⊥ }
    ensures operand { IsNetwork (inversion_with (edge 0 0 1 1 ∷ edge 1 0 2 0 ∷ [])) → ⊥ }
{}

/// Two `not` that feed each other are no network.
pub fn a_ring_is_no_network()
    ensures { IsNetwork ring → ⊥ }
{}

/// Two inputs with one port, two outputs with one port, an output with port 1 where there is one alone, and
/// a gate with a port are in no network.
pub fn near_misses_of_ports()
    ensures inputs { (port output : ℕ) → IsNetwork (conjunction_at port port output) → ⊥ }
    ensures outputs { (port : ℕ) → IsNetwork (shared_at port port) → ⊥ }
    ensures gap { (one other : ℕ) → IsNetwork (conjunction_at one other 1) → ⊥ }
    ensures gate { (N : Network)
        → N.nodes ≡ node Input ∷ node_with Not 1 ∷ node Output ∷ [] → IsNetwork N → ⊥ }
{}

/// A network in which a value meets its own inversion in an `and`. Of the two ways to the `and` the longer one
/// counts, and its one valuation ends in false. On five rows the `and` may stand in the fourth alone.
pub fn two_ways_lead_through_the_branching_network()
    ensures network { IsNetwork branching }
    ensures down { IsDown branching 3 3 }
    ensures up { IsUp branching 1 3 }
    ensures values { (bits values : List Bool)
        → IsValuation branching bits values ↔ (values ≡ branching_values (value_of bits 0)) }
    ensures window { (row : ℕ) → IsInWindow branching 3 row 5 ↔ (row ≡ 3) }
{}
