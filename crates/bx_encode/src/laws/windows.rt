//! The test of a node's window.
ghost use Rattle.std.specs.Prelude.{ℕ, ◌<◌, ◌↔◌, IsTrue, length};
ghost use Rattle.bx_network.specs.Networks.{Network, IsNetwork};
ghost use Rattle.bx_network.specs.Paths.{IsDown, IsUp};
ghost use Rattle.bx_network.specs.Windows.{IsInWindow};
ghost use Rattle.bx_encode.specs.Windows.{down_of, up_of, in_window};

/// The lengths that are computed are those of the longest paths, and the test passes exactly the rows in a
/// node's window.
pub fn the_test_of_a_window_is_exact()
    ensures down { (N : Network) (v : ℕ)
        → IsNetwork N → v < length N.nodes → IsDown N v (down_of N v) }
    ensures up { (N : Network) (v : ℕ)
        → IsNetwork N → v < length N.nodes → IsUp N v (up_of N v) }
    ensures window { (N : Network) (v row height : ℕ) → IsNetwork N → v < length N.nodes
        → IsTrue (in_window N v row height) ↔ IsInWindow N v row height }
{}
