//! Laws about the definitions alone, each the clause of a function with an empty body. Nothing here
//! runs.
ghost use Rattle.std.specs.Prelude.{◌≡◌, ◌↔◌, ℕ, ◌<◌, None, true, false, List, [], ◌∷◌, length};
ghost use Rattle.bx_logic.specs.Nets.{Netlist, IsNet};
ghost use Rattle.bx_logic.specs.Behaviours.{SameBehaviour, net_behaviour};
ghost use Rattle.bx_forms.specs.declared.kind.Kind.TheVariants.{Input, Output, Not, Fan, And};
ghost use Rattle.bx_network.specs.Networks.{IsNetwork, HasPort, output_count};
ghost use Rattle.bx_network.specs.Values.{network_behaviour};
ghost use Rattle.bx_network.specs.Examples.{node, node_with, edge};
ghost use Rattle.bx_map.specs.declared.consumer.Consumer.{Consumer};
ghost use Rattle.bx_map.specs.Cells.{CellNet, AreCells};
ghost use Rattle.bx_map.specs.Walks.{has};
ghost use Rattle.bx_map.specs.Drops.{Reaches, stay_of};
ghost use Rattle.bx_map.specs.FanOuts.{tree_of, direct, fan};
ghost use Rattle.bx_map.specs.Examples.{read_by_three};
ghost use Rattle.bx_map.specs.Maps.{first_constant, mapping_of, node_count};

/// Where no output of a net folds to a constant, its mapped network is a network: each slot and each
/// operand has its one edge, and each edge leads to a node further on.
pub fn a_mapped_network_is_a_network()
    ensures { (net : Netlist) → IsNet net → first_constant net ≡ None
        → node_count net < 2147483648 → IsNetwork (mapping_of net) }
{}

/// For every assignment to its inputs the mapped network gives each output the value that the net gives
/// it.
pub fn a_mapped_network_computes_its_net()
    ensures { (net : Netlist) → IsNet net → first_constant net ≡ None
        → node_count net < 2147483648
        → SameBehaviour (net_behaviour net)
        (network_behaviour (length net.inputs) (mapping_of net)) }
{}

/// Its ports are those of the net: each input node has the number of an input, and there are as many
/// output nodes as outputs.
pub fn a_mapped_network_has_the_ports_of_its_net()
    ensures inputs { (net : Netlist) (v port : ℕ) → IsNet net → first_constant net ≡ None
        → HasPort (mapping_of net) v Input port → port < length net.inputs }
    ensures outputs { (net : Netlist) → IsNet net → first_constant net ≡ None
        → output_count (mapping_of net) ≡ length net.outputs }
{}

/// The cells that stay are those from which an output can be reached.
pub fn what_reaches_an_output_stays()
    ensures { (net : CellNet) (i : ℕ) → AreCells net
        → (has (stay_of net) i ≡ true) ↔ Reaches net i }
{}

/// A conjunction that an inversion and two outputs read. Its consumers are the inversion first, as the operand
/// of a gate, and then the outputs. The first fan serves the larger half by its slot 0, which is a fan too, and
/// the last output by its slot 1. Each node is followed by its fans, and the outputs come last.
pub fn three_read_a_conjunction()
    ensures nodes { (mapping_of read_by_three).nodes ≡ node_with Input 0 ∷ node_with Input 1
        ∷ node And ∷ node Fan ∷ node Fan ∷ node Not
        ∷ node_with Output 0 ∷ node_with Output 1 ∷ node_with Output 2 ∷ [] }
    ensures edges { (mapping_of read_by_three).edges ≡ edge 0 0 2 0 ∷ edge 1 0 2 1
        ∷ edge 2 0 3 0 ∷ edge 3 0 4 0 ∷ edge 3 1 7 0
        ∷ edge 4 0 5 0 ∷ edge 4 1 6 0 ∷ edge 5 0 8 0 ∷ [] }
{}

/// One consumer is served by an edge, and more are served by a fan each time that they are halved. Where they
/// are odd in number, the first half is the larger one.
pub fn the_first_half_is_the_larger_one()
    ensures one { (a : Consumer) → tree_of (a ∷ []) ≡ direct a }
    ensures two { (a b : Consumer) → tree_of (a ∷ b ∷ []) ≡ fan (direct a) (direct b) }
    ensures three { (a b c : Consumer)
        → tree_of (a ∷ b ∷ c ∷ []) ≡ fan (fan (direct a) (direct b)) (direct c) }
    ensures five { (a b c d e : Consumer) → tree_of (a ∷ b ∷ c ∷ d ∷ e ∷ [])
        ≡ fan (fan (fan (direct a) (direct b)) (direct c)) (fan (direct d) (direct e)) }
{}
