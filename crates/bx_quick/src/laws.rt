//! What holds of the layout in lanes, beyond what is asked of its code. Nothing here runs.
ghost use Rattle.std.specs.Prelude.{◌≡◌, ℕ, ◌+◌, ◌*◌, ◌<◌, ◌≤◌, Bool, List, length};
ghost use Rattle.bx_logic.specs.Op.{first_value};
ghost use Rattle.bx_logic.specs.Values.{value_of};
ghost use Rattle.bx_network.specs.Networks.{Network, IsNetwork};
ghost use Rattle.bx_layout.specs.Grids.{IsSound};
ghost use Rattle.bx_layout.specs.Pins.{Computes};
ghost use Rattle.bx_layout.specs.Valuations.{comes_in, IsBorderValuation};
ghost use Rattle.bx_quick.specs.declared.operation.Operation.{Operation};
ghost use Rattle.bx_quick.specs.Grids.{grid_of};
ghost use Rattle.bx_quick.specs.Pins.{quick_pins};
ghost use Rattle.bx_quick.specs.Chains.{IsChain, AreCarried, chain_grid};

/// The grid of a network that has a node is sound.
pub fn the_grid_is_sound()
    ensures { (N : Network) → IsNetwork N → 0 < length N.nodes → IsSound (grid_of N) }
{}

/// With its pins by port order it computes the network, for every number of inputs.
pub fn the_grid_computes_the_network()
    ensures { (N : Network) → IsNetwork N → 0 < length N.nodes → (inputs : ℕ) →
        Computes inputs (grid_of N) (quick_pins N) N }
{}

/// Operations that follow one another have a sound grid, where it has a column for each lane.
pub fn a_chain_has_a_sound_grid()
    ensures { (w s t : ℕ) (ops : List Operation) → 1 ≤ w → IsChain w s ops t →
        IsSound (chain_grid w ops t) }
{}

/// What is given to the tiles of the first row comes to those of the last as the operations make it.
pub fn a_chain_carries_its_values()
    ensures { (w s t : ℕ) (ops : List Operation) (given borders : List Bool)
        (before after : ℕ → Bool) → 1 ≤ w → IsChain w s ops t →
        IsBorderValuation (chain_grid w ops t) given borders → AreCarried ops before after →
        ((x : ℕ) → x < s → value_of given x ≡ before x) → (x : ℕ) → x < t →
        first_value (comes_in (chain_grid w ops t) borders ((2 * length ops + 1) * w + x)) ≡
        after x }
{}
