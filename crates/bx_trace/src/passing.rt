//! What a form without a node hands on: wires, `double` and `cross` alone do, each what comes in on
//! an upper side to one lower side. It is read from what the forms give, so that the table of forms
//! is said once.
ghost use Rattle.std.specs.Prelude.{◌≡◌, ◌↔◌, IsTrue, Some, None};
ghost use Rattle.bx_forms.specs.declared.side.Side.{Side};
ghost use Rattle.bx_forms.specs.Forms.{form_node};
ghost use Rattle.bx_forms.specs.Sides.{opposite as opposite_of, is_used as used_of};
ghost use Rattle.bx_layout.specs.TileForms.{on_side};
ghost use Rattle.bx_trace.specs.Passing.{Passes};

use bx_forms::{Form, Side, Sides};

/// The lower side on which the form sends out what comes in on this upper side, or none.
pub fn exit(form: Form, from: Side) -> Option<Side>
    requires { form_node form ≡ None }
    ensures { (side : Side) → (result ≡ Some side) ↔ Passes form from side }
{
    if passes(form, from, Side::Left) {
        Some(Side::Left)
    } else if passes(form, from, Side::Right) {
        Some(Side::Right)
    } else {
        None
    }
}

/// The upper side whose value the form sends out on this lower side, or none.
pub fn source(form: Form, side: Side) -> Option<Side>
    requires { form_node form ≡ None }
    ensures { (from : Side) → (result ≡ Some from) ↔ Passes form from side }
{
    if passes(form, Side::Left, side) {
        Some(Side::Left)
    } else if passes(form, Side::Right, side) {
        Some(Side::Right)
    } else {
        None
    }
}

// Whether the form sends out on the lower side what comes in on the upper one.
fn passes(form: Form, from: Side, side: Side) -> bool
    requires { form_node form ≡ None }
    ensures { IsTrue result ↔ Passes form from side }
{
    let left_alone = on(form.apply(true, false), side);
    let right_alone = on(form.apply(false, true), side);
    left_alone == on((true, false), from) && right_alone == on((false, true), from)
}

// Of what is on the left and on the right, that on this side.
fn on(both: (bool, bool), side: Side) -> bool
    ensures { result ≡ on_side both.0 both.1 side }
{
    match side {
        Side::Left => both.0,
        Side::Right => both.1,
    }
}

/// Whether the side is one of these.
pub fn is_used(sides: Sides, side: Side) -> bool
    ensures { result ≡ used_of sides side }
{
    match side {
        Side::Left => sides.left,
        Side::Right => sides.right,
    }
}

/// The other side.
pub fn opposite(side: Side) -> Side
    ensures { result ≡ opposite_of side }
{
    match side {
        Side::Left => Side::Right,
        Side::Right => Side::Left,
    }
}
