//! Laws of what is written in a module: what each operator gives, how operators group, and which
//! equations each part of an item stands for. Nothing here runs.
ghost use Rattle.std.specs.Prelude.{◌≡◌, ◌≢◌, ◌↔◌, Bool, not, ◌&&◌, ◌||◌, IsTrue, List, [], ◌∷◌, Some, None, map};
ghost use Rattle.bx_logic.specs.declared.op.Op.{Op};
ghost use Rattle.bx_logic.specs.declared.op.Op.TheVariants.{Buf};
ghost use Rattle.bx_syntax.specs.declared.tree.Direction.{Direction};
ghost use Rattle.bx_syntax.specs.declared.tree.Operator.{Operator};
ghost use Rattle.bx_syntax.specs.declared.tree.Operator.TheVariants.{And, Or, Xor, Xnor};
ghost use Rattle.bx_syntax.specs.Trees.{Tree, group, joined, done, link};
ghost use Rattle.bx_syntax.specs.Parts.{PartTree, declaration, wire, assign, gate, copies};
ghost use Rattle.bx_verilog.specs.Formulas.{Text, Formula, named, constant, negation, pair, formula, formula_value};
ghost use Rattle.bx_verilog.specs.Drives.{drives_of};
ghost use Rattle.bx_verilog.specs.Equations.{equate, says};

/// A name has its value, a bit is itself, and an operator gives what its sign says.
pub fn what_formulas_give()
    ensures name { (v : Text → Bool) (n : Text) → formula_value v (named n) ≡ v n }
    ensures bit { (v : Text → Bool) (b : Bool) → formula_value v (constant b) ≡ b }
    ensures not { (v : Text → Bool) (f : Formula) →
        formula_value v (negation f) ≡ not (formula_value v f) }
    ensures and { (v : Text → Bool) (f g : Formula) →
        formula_value v (pair And f g) ≡ (formula_value v f && formula_value v g) }
    ensures or { (v : Text → Bool) (f g : Formula) →
        formula_value v (pair Or f g) ≡ (formula_value v f || formula_value v g) }
    ensures xor { (v : Text → Bool) (f g : Formula) →
        IsTrue (formula_value v (pair Xor f g)) ↔ (formula_value v f ≢ formula_value v g) }
    ensures xnor { (v : Text → Bool) (f g : Formula) →
        IsTrue (formula_value v (pair Xnor f g)) ↔ (formula_value v f ≡ formula_value v g) }
{}

/// Operators of one level group to the left, unless parentheses stand there.
pub fn operators_group_to_the_left()
    ensures left { (o p : Operator) (a b c : Tree) →
        formula (joined a o b (link p c done)) ≡
        pair p (pair o (formula a) (formula b)) (formula c) }
    ensures grouped { (o p : Operator) (a b c : Tree) →
        formula (joined a o (group (joined b p c done)) done) ≡
        pair o (formula a) (pair p (formula b) (formula c)) }
{}

/// The declaration of a port drives nothing, nor does that of a wire without a driver. An assignment is
/// a `Buf`, and so is a wire with a driver; a gate has all its arguments; each output of a `buf` or a `not`
/// has an equation.
pub fn what_parts_say()
    ensures port { (d : Direction) (n : Text) → drives_of (declaration d n) ≡ [] }
    ensures bare { (n : Text) → drives_of (wire n None) ≡ [] }
    ensures wire { (n : Text) (e : Tree) →
        says (wire n (Some e)) ≡ equate n Buf (formula e ∷ []) ∷ [] }
    ensures assign { (n : Text) (e : Tree) →
        says (assign n e) ≡ equate n Buf (formula e ∷ []) ∷ [] }
    ensures gate { (op : Op) (n : Text) (es : List Tree) →
        says (gate op n es) ≡ equate n op (map formula es) ∷ [] }
    ensures copies { (op : Op) (p q : Text) (e : Tree) →
        says (copies op (p ∷ q ∷ []) e) ≡
        equate p op (formula e ∷ []) ∷ equate q op (formula e ∷ []) ∷ [] }
{}
