//! Laws about the definitions alone, each the clause of a function with an empty body. Nothing here
//! runs.
ghost use Rattle.std.specs.Prelude.{◌≡◌, ℕ, Bool, not, List, Option, Some};
ghost use Rattle.bx_forms.specs.declared.kind.Kind.{Kind};
ghost use Rattle.bx_forms.specs.declared.kind.Kind.TheVariants as kind;
ghost use Rattle.bx_forms.specs.declared.side.Side.{Side};
ghost use Rattle.bx_forms.specs.declared.side.Side.TheVariants.{Left, Right};
ghost use Rattle.bx_forms.specs.declared.side.Sides.{Sides};
ghost use Rattle.bx_forms.specs.declared.table.Function.TheVariants.{Given, Same, Negation, And, Or, Nand, Nor, Xor, Xnor, Double, Cross};
ghost use Rattle.bx_forms.specs.Kinds.{operands, slots, gives_one, gives_two, AreGates};
ghost use Rattle.bx_forms.specs.Sides.{side_count};
ghost use Rattle.bx_forms.specs.Forms.{form_name, form_node, form_upper, form_lower, value_of_one, value_of_two, AreExits, IsFormOf};
ghost use Rattle.bx_forms.specs.FormTable.{IsFormTable};

/// The table has the forms as they are described, line by line.
pub fn the_forms_are_as_described()
    ensures { IsFormTable }
{}

/// No two forms have one name.
pub fn a_form_is_known_by_its_name()
    ensures { (name : List ℕ) (f g : ℕ) →
        form_name f ≡ Some name → form_name g ≡ Some name → f ≡ g }
{}

/// An input sends what is given on either side, a wire or a fan the value that comes in, and a `not`
/// its inverse.
pub fn what_forms_of_one_value_give()
    ensures given { (b : Bool) (side : Side) → value_of_one Given b side ≡ b }
    ensures same { (b : Bool) (side : Side) → value_of_one Same b side ≡ b }
    ensures negation { (b : Bool) (side : Side) → value_of_one Negation b side ≡ not b }
{}

/// A gate sends on either side what its name says of the two values that come in.
pub fn what_gates_give()
    ensures { (side : Side) → AreGates (value_of_two side) And Or Nand Nor Xor Xnor }
{}

/// A `double` sends on each side what comes in on that side, the left value first, and a `cross` what
/// comes in on the other.
pub fn what_double_and_cross_give()
    ensures double_left { (l r : Bool) → value_of_two Left Double l r ≡ l }
    ensures double_right { (l r : Bool) → value_of_two Right Double l r ≡ r }
    ensures cross_left { (l r : Bool) → value_of_two Left Cross l r ≡ r }
    ensures cross_right { (l r : Bool) → value_of_two Right Cross l r ≡ l }
{}

/// What a node of each kind gives to a slot, for the values that it reads by operand 0 and operand 1:
/// an input, an output or a fan the one that it reads, a `not` its inverse, and a gate what its name
/// says.
pub fn what_nodes_give()
    ensures input { (b : Bool) (slot : ℕ) → gives_one kind.Input b slot ≡ b }
    ensures output { (b : Bool) (slot : ℕ) → gives_one kind.Output b slot ≡ b }
    ensures fan { (b : Bool) (slot : ℕ) → gives_one kind.Fan b slot ≡ b }
    ensures not { (b : Bool) (slot : ℕ) → gives_one kind.Not b slot ≡ not b }
    ensures gates { (slot : ℕ) →
        AreGates (gives_two slot) kind.And kind.Or kind.Nand kind.Nor kind.Xor kind.Xnor }
{}

/// It doesn't matter which operand of a node has which of two values.
pub fn operands_may_be_exchanged()
    ensures { (kind : Kind) (a b : Bool) (slot : ℕ) →
        operands kind ≡ 2 → gives_two slot kind a b ≡ gives_two slot kind b a }
{}

/// A form that holds a node has an upper side for each edge that enters a node of this kind, and a
/// lower side for each that leaves it.
pub fn a_form_has_a_side_for_each_edge_of_its_node()
    ensures upper { (form : ℕ) (kind : Kind) →
        form_node form ≡ Some kind → side_count (form_upper form) ≡ operands kind }
    ensures lower { (form : ℕ) (kind : Kind) →
        form_node form ≡ Some kind → side_count (form_lower form) ≡ slots kind }
{}

/// Where as many upper sides are used as a node has operands, and each of its slots leaves on one
/// lower side, the node has one form, and no other.
pub fn a_node_has_one_form()
    ensures some { (kind : Kind) (upper : Sides) (left right : Option ℕ) →
        side_count upper ≡ operands kind → AreExits (slots kind) left right →
        (form : ℕ) × IsFormOf kind upper left right form }
    ensures once { (kind : Kind) (upper : Sides) (left right : Option ℕ) (f g : ℕ) →
        IsFormOf kind upper left right f → IsFormOf kind upper left right g → f ≡ g }
{}
