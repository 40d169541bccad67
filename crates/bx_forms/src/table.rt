//! The table of forms, as data. A law says of each line what it has to be; nothing else in the
//! repository repeats it.

ghost use Rattle.std.specs.Prelude.{◌≡◌};
ghost use Rattle.bx_logic.specs.Op.{first_value, conjunction, disjunction, parity};
ghost use Rattle.bx_forms.specs.Sides.{used_values};
ghost use Rattle.bx_forms.specs.Forms.{function_value, second_value};

use crate::{Kind, Side, Sides};

// What a form gives for the values that it reads, from left to right. It goes out on each lower
// side that is used.
#[derive(Clone, Copy)]
pub enum Function {
    // The value that is given from outside.
    Given,
    // The value is read, and goes no further.
    Read,
    Same,
    Negation,
    And,
    Or,
    Nand,
    Nor,
    Xor,
    Xnor,
    // Left to left, right to right.
    Double,
    // Left to right, right to left.
    Cross,
}

// What the table says of a form beside its name.
#[derive(Clone, Copy)]
pub struct Shape {
    pub upper: Sides,
    pub lower: Sides,
    // The kind of node that stands on it, or none for wires, double and cross.
    pub node: Option<Kind>,
    pub function: Function,
}

impl Shape {
    // What its function gives on a lower side for what comes in on the upper sides.
    pub fn value(self, left: bool, right: bool, side: Side) -> bool
        ensures { result ≡ function_value self.function (used_values self.upper left right) side }
    {
        let upper = self.upper;
        match (self.function, side) {
            (Function::Read, _) => false,
            (Function::Given | Function::Same, _) => upper.first(left, right),
            (Function::Negation, _) => !upper.first(left, right),
            (Function::And, _) => upper.all(left, right),
            (Function::Or, _) => upper.any(left, right),
            (Function::Nand, _) => !upper.all(left, right),
            (Function::Nor, _) => !upper.any(left, right),
            (Function::Xor, _) => upper.odd(left, right),
            (Function::Xnor, _) => !upper.odd(left, right),
            (Function::Double, Side::Left) => upper.first(left, right),
            (Function::Double, Side::Right) => upper.second(left, right),
            (Function::Cross, Side::Left) => upper.second(left, right),
            (Function::Cross, Side::Right) => upper.first(left, right),
        }
    }
}

// Of a value on the left and one on the right those on the used sides, from left to right.
impl Sides {
    fn first(self, left: bool, right: bool) -> bool
        ensures { result ≡ first_value (used_values self left right) }
    {
        if self.left { left } else { self.right && right }
    }

    fn second(self, left: bool, right: bool) -> bool
        ensures { result ≡ second_value (used_values self left right) }
    {
        self.left && self.right && right
    }

    fn all(self, left: bool, right: bool) -> bool
        ensures { result ≡ conjunction (used_values self left right) }
    {
        (!self.left || left) && (!self.right || right)
    }

    fn any(self, left: bool, right: bool) -> bool
        ensures { result ≡ disjunction (used_values self left right) }
    {
        (self.left && left) || (self.right && right)
    }

    fn odd(self, left: bool, right: bool) -> bool
        ensures { result ≡ parity (used_values self left right) }
    {
        (self.left && left) != (self.right && right)
    }
}

const NEITHER: Sides = Sides {
    left: false,
    right: false,
};

const LEFT: Sides = Sides {
    left: true,
    right: false,
};

const RIGHT: Sides = Sides {
    left: false,
    right: true,
};

const BOTH: Sides = Sides {
    left: true,
    right: true,
};

// A shape in one line of the source.
macro_rules! shape {
    ($upper:expr, $lower:expr, $node:expr, $function:ident) => {
        Shape {
            upper: $upper,
            lower: $lower,
            node: $node,
            function: Function::$function,
        }
    };
}

// How many forms there are.
pub const COUNT: u8 = 28;

// The forms, each at its number. In a name the letters are first the upper side, then the lower one,
// as far as the form has a choice there. A line is read where it stands: the table is no constant, of
// which each use would be a copy.
pub static FORMS: [(&str, Shape); COUNT as usize] = [
    ("input_l", shape!(NEITHER, LEFT, Some(Kind::Input), Given)),
    ("input_r", shape!(NEITHER, RIGHT, Some(Kind::Input), Given)),
    ("output_l", shape!(LEFT, NEITHER, Some(Kind::Output), Read)),
    ("output_r", shape!(RIGHT, NEITHER, Some(Kind::Output), Read)),
    ("wire_ll", shape!(LEFT, LEFT, None, Same)),
    ("wire_lr", shape!(LEFT, RIGHT, None, Same)),
    ("wire_rl", shape!(RIGHT, LEFT, None, Same)),
    ("wire_rr", shape!(RIGHT, RIGHT, None, Same)),
    ("not_ll", shape!(LEFT, LEFT, Some(Kind::Not), Negation)),
    ("not_lr", shape!(LEFT, RIGHT, Some(Kind::Not), Negation)),
    ("not_rl", shape!(RIGHT, LEFT, Some(Kind::Not), Negation)),
    ("not_rr", shape!(RIGHT, RIGHT, Some(Kind::Not), Negation)),
    ("fan_l", shape!(LEFT, BOTH, Some(Kind::Fan), Same)),
    ("fan_r", shape!(RIGHT, BOTH, Some(Kind::Fan), Same)),
    ("and_l", shape!(BOTH, LEFT, Some(Kind::And), And)),
    ("and_r", shape!(BOTH, RIGHT, Some(Kind::And), And)),
    ("or_l", shape!(BOTH, LEFT, Some(Kind::Or), Or)),
    ("or_r", shape!(BOTH, RIGHT, Some(Kind::Or), Or)),
    ("nand_l", shape!(BOTH, LEFT, Some(Kind::Nand), Nand)),
    ("nand_r", shape!(BOTH, RIGHT, Some(Kind::Nand), Nand)),
    ("nor_l", shape!(BOTH, LEFT, Some(Kind::Nor), Nor)),
    ("nor_r", shape!(BOTH, RIGHT, Some(Kind::Nor), Nor)),
    ("xor_l", shape!(BOTH, LEFT, Some(Kind::Xor), Xor)),
    ("xor_r", shape!(BOTH, RIGHT, Some(Kind::Xor), Xor)),
    ("xnor_l", shape!(BOTH, LEFT, Some(Kind::Xnor), Xnor)),
    ("xnor_r", shape!(BOTH, RIGHT, Some(Kind::Xnor), Xnor)),
    ("double", shape!(BOTH, BOTH, None, Double)),
    ("cross", shape!(BOTH, BOTH, None, Cross)),
];
