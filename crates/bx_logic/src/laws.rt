//! Laws about the definitions alone, each the clause of a function with an empty body. Nothing here
//! runs.
ghost use Rattle.std.specs.Prelude.{◌≡◌, ◌≢◌, ◌↔◌, ℕ, ◌<◌, List, [], ◌∷◌, Bool, true, false, not, ◌&&◌, ◌||◌, IsTrue, All, length};
ghost use Rattle.bx_logic.specs.declared.op.Op.{Op};
ghost use Rattle.bx_logic.specs.declared.op.Op.TheVariants.{Buf, Not, And, Or, Nand, Nor, Xor, Xnor};
ghost use Rattle.bx_logic.specs.declared.driver.Driver.TheVariants.{Gate};
ghost use Rattle.bx_logic.specs.Op.{op_value};
ghost use Rattle.bx_logic.specs.Nets.{Netlist, IsNet, Reads, driver_at, output_nets};
ghost use Rattle.bx_logic.specs.Ascending.{IsAscending};
ghost use Rattle.bx_logic.specs.Values.{IsNetValuation, IsOnlyNetValuation};
ghost use Rattle.bx_logic.specs.Behaviours.{IsFunction, SameBehaviour, net_behaviour};
ghost use Rattle.bx_logic.specs.Inverters.{inverter, two_inverters, wire};

/// For any values of its inputs the nets of a net have exactly one valuation.
pub fn a_net_has_one_valuation()
    ensures { (net : Netlist) (bits : List Bool) → IsNet net
        → (values : List Bool) × IsOnlyNetValuation net.drivers bits values }
{}

/// Where the inputs come first and each gate reads earlier nets alone, the lists make a net.
pub fn an_ascending_list_makes_a_net()
    ensures { (net : Netlist)
        → length net.inputs < 4294967296
        → length net.outputs < 4294967296
        → length net.drivers < 4294967296
        → All (λ n. n < length net.drivers) (output_nets net)
        → IsAscending (length net.inputs) net.drivers
        → IsNet net }
{}

/// For each list of as many values as it has inputs a net gives one list of as many values as it has
/// outputs, and no other list; for fewer values or more it gives none.
pub fn a_net_gives_one_list_of_outputs()
    ensures { (net : Netlist) → IsNet net
        → IsFunction (length net.inputs) (length net.outputs) (net_behaviour net) }
{}

/// Two inverters in a row have the behaviour of a wire, and one has not.
pub fn two_inverters_are_a_wire()
    ensures two { SameBehaviour (net_behaviour two_inverters) (net_behaviour wire) }
    ensures one { SameBehaviour (net_behaviour inverter) (net_behaviour wire) → ⊥ }
{}

/// A gate without arguments makes no net, nor does a `Buf` or a `Not` of two.
pub fn a_gate_has_the_arguments_of_its_operation()
    ensures none { (net : Netlist) (n : ℕ) (op : Op)
        → driver_at net.drivers n ≡ Gate op [] → IsNet net → ⊥ }
    ensures buf { (net : Netlist) (n a b : ℕ)
        → driver_at net.drivers n ≡ Gate Buf (a ∷ b ∷ []) → IsNet net → ⊥ }
    ensures not { (net : Netlist) (n a b : ℕ)
        → driver_at net.drivers n ≡ Gate Not (a ∷ b ∷ []) → IsNet net → ⊥ }
{}

/// Where a net reads itself, or two read each other, the lists make no net.
pub fn nets_that_read_one_another_are_none()
    ensures itself { (net : Netlist) (n : ℕ) → Reads net.drivers n n → IsNet net → ⊥ }
    ensures each_other { (net : Netlist) (n m : ℕ)
        → Reads net.drivers n m → Reads net.drivers m n → IsNet net → ⊥ }
{}

/// An inversion of itself has no valuation, and a copy of itself has two.
pub fn a_loop_has_no_valuation_or_two()
    ensures inversion { (bits values : List Bool)
        → IsNetValuation (Gate Not (0 ∷ []) ∷ []) bits values → ⊥ }
    ensures copy { (bits : List Bool) (b : Bool)
        → IsNetValuation (Gate Buf (0 ∷ []) ∷ []) bits (b ∷ []) }
{}

/// Of one value an operation gives the value, and one that inverts gives the inverse.
pub fn what_operations_give_of_one_value()
    ensures buf { (b : Bool) → op_value Buf (b ∷ []) ≡ b }
    ensures not { (b : Bool) → op_value Not (b ∷ []) ≡ not b }
    ensures and { (b : Bool) → op_value And (b ∷ []) ≡ b }
    ensures or { (b : Bool) → op_value Or (b ∷ []) ≡ b }
    ensures xor { (b : Bool) → op_value Xor (b ∷ []) ≡ b }
    ensures nand { (b : Bool) → op_value Nand (b ∷ []) ≡ not b }
    ensures nor { (b : Bool) → op_value Nor (b ∷ []) ≡ not b }
    ensures xnor { (b : Bool) → op_value Xnor (b ∷ []) ≡ not b }
{}

/// Of two values an operation gives what its name says.
pub fn what_operations_give_of_two_values()
    ensures and { (a b : Bool) → op_value And (a ∷ b ∷ []) ≡ (a && b) }
    ensures or { (a b : Bool) → op_value Or (a ∷ b ∷ []) ≡ (a || b) }
    ensures nand { (a b : Bool) → op_value Nand (a ∷ b ∷ []) ≡ not (a && b) }
    ensures nor { (a b : Bool) → op_value Nor (a ∷ b ∷ []) ≡ not (a || b) }
    ensures xor { (a b : Bool) → IsTrue (op_value Xor (a ∷ b ∷ [])) ↔ (a ≢ b) }
    ensures xnor { (a b : Bool) → IsTrue (op_value Xnor (a ∷ b ∷ [])) ↔ (a ≡ b) }
{}

/// `Nand`, `Nor` and `Xnor` of any number of arguments are the negations of the conjunction, the
/// disjunction and the parity of all. A chain of gates of two arguments, each over the value of the one
/// before, would give the inverse in each of these rows.
pub fn n_ary_operations_negate_once()
    ensures nands { (bs : List Bool) → op_value Nand bs ≡ not (op_value And bs) }
    ensures nors { (bs : List Bool) → op_value Nor bs ≡ not (op_value Or bs) }
    ensures xnors { (bs : List Bool) → op_value Xnor bs ≡ not (op_value Xor bs) }
    ensures nand { op_value Nand (false ∷ true ∷ true ∷ []) ≡ true }
    ensures nor { op_value Nor (true ∷ false ∷ false ∷ []) ≡ false }
    ensures xnor { op_value Xnor (true ∷ true ∷ false ∷ []) ≡ true }
{}
