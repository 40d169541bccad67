//! Operations on lanes as data, one tile each, and their forms. What an operation does to the edges in the
//! lanes is for the definitions to say.
ghost use Rattle.std.specs.Prelude.{◌≡◌};
ghost use Rattle.bx_forms.specs.Forms.{IsForm, form_upper, form_lower};
ghost use Rattle.bx_forms.specs.Kinds.{operands};
ghost use Rattle.bx_quick.specs.Operations.{node_form as form_of_node, takes_as_right as takes, gives_as_right as gives, is_right_of_two as is_right};

use bx_forms::{Form, Kind, Sides};

/// An operation: how many lanes there are before it, the lane at which its tile stands, and the tile's
/// form. Where it takes or gives two lanes, the other is the next one to the right.
#[derive(Clone, Copy)]
pub struct Operation {
    pub lanes: u16,
    pub lane: u16,
    pub form: Form,
}

// The forms that stand here beside those of nodes, by their numbers.
pub const INPUT_L: u8 = 0;

pub const INPUT_R: u8 = 1;

pub const OUTPUT_L: u8 = 2;

pub const WIRE_LL: u8 = 4;

pub const WIRE_LR: u8 = 5;

pub const WIRE_RL: u8 = 6;

pub const WIRE_RR: u8 = 7;

pub const CROSS: u8 = 27;

// The form with this number.
pub fn form(number: u8) -> Form
    requires { IsForm number }
    ensures { result ≡ number }
{
    match Form::from_number(number) {
        Some(form) => form,
        None => unreachable!(),
    }
}

// The form of the operation that a node of this kind is.
pub fn node_form(kind: Kind) -> Form
    ensures { result ≡ form_of_node kind }
{
    match kind {
        Kind::Input => form(INPUT_L),
        Kind::Output => form(OUTPUT_L),
        Kind::Not => form(8),
        Kind::Fan => form(12),
        Kind::And => form(14),
        Kind::Or => form(16),
        Kind::Nand => form(18),
        Kind::Nor => form(20),
        Kind::Xor => form(22),
        Kind::Xnor => form(24),
    }
}

// Whether lane x is the right one of two that the operation takes.
pub fn takes_as_right(op: &Operation, x: u32) -> bool
    ensures { result ≡ takes op.now x }
{
    is_right_of_two(op.form.upper(), op.lane, x)
}

// Whether lane x is the right one of two that the operation gives.
pub fn gives_as_right(op: &Operation, x: u32) -> bool
    ensures { result ≡ gives op.now x }
{
    is_right_of_two(op.form.lower(), op.lane, x)
}

// Whether lane x is the right one of two that meet on these sides of the tile at this lane.
fn is_right_of_two(sides: Sides, lane: u16, x: u32) -> bool
    ensures { result ≡ is_right sides lane x }
{
    sides.left && sides.right && x == u32::from(lane) + 1
}
