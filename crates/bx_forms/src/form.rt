//! Forms, each a line of the table: what it is called, which sides it uses, what it holds, and what
//! it gives. What a form means on a grid is for the grids to say.
ghost use Rattle.std.specs.Prelude.{◌≡◌, ◌≢◌, ◌↔◌, ℕ, Some, IfSome, IsSome, IsNone, IsTrue};
ghost use Rattle.bx_forms.specs.declared.kind.Kind.TheVariants.{Input};
ghost use Rattle.bx_forms.specs.declared.side.Side.TheVariants.{Left, Right};
ghost use Rattle.bx_forms.specs.Forms.{IsForm, forms, form_name, form_node, form_upper, form_lower, form_value, shape_of, IsFormWith, IsFormOf};

use crate::table::{COUNT, FORMS, Shape};
use crate::{Kind, Side, Sides};
use std::marker::Model;

/// One of the forms of a tile. Contracts see it as its number, of which the table has a line.
#[derive(Clone, Copy)]
pub struct Form {
    number: u8,
}

impl Model for Form {
    ghost use Rattle.std.specs.Prelude.{ℕ};
    ghost use Rattle.bx_forms.specs.Forms.{IsForm};

    ghost Value = { ℕ };

    ghost view = { λ form. form.number };

    ghost invariant = { λ form. IsForm form.number };

    ghost inverse = { λ number. record { number = number } };
}

impl Form {
    /// All forms, in the order of the table.
    pub fn all() -> [Form; COUNT as usize]
        ensures { result ≡ forms }
    {
        let mut all = [Form { number: 0 }; COUNT as usize];
        for number in 0..COUNT {
            all[usize::from(number)] = Form { number };
        }
        all
    }

    /// The form with this number, or none where the table has no such line.
    pub fn from_number(n: u8) -> Option<Form>
        ensures same { IfSome result (λ form. form ≡ n) }
        ensures some { IsSome result ↔ IsForm n }
    {
        if n < COUNT {
            Some(Form { number: n })
        } else {
            None
        }
    }

    /// The number of the form in the table.
    pub fn number(self) -> u8
        ensures same { result ≡ self }
        ensures form { IsForm result }
    {
        self.number
    }

    /// The name of the form, as it is printed.
    pub fn name(self) -> &'static str
        ensures { Some result.now ≡ form_name self }
    {
        FORMS[usize::from(self.number)].0
    }

    /// The form with this name, or none where no form has it.
    pub fn by_name(text: &str) -> Option<Form>
        ensures some { IfSome result (λ form. form_name form ≡ Some text.now) }
        ensures none { IsNone result → (form : ℕ) → form_name form ≡ Some text.now → ⊥ }
    {
        for number in 0..COUNT {
            let form = Form { number };
            if form.name() == text {
                return Some(form);
            }
        }
        None
    }

    /// The kind of node that stands on it: none for wires, `double` and `cross`.
    pub fn node(self) -> Option<Kind>
        ensures { result ≡ form_node self }
    {
        self.shape().node
    }

    /// The upper sides that it uses.
    pub fn upper(self) -> Sides
        ensures { result ≡ form_upper self }
    {
        self.shape().upper
    }

    /// The lower sides that it uses.
    pub fn lower(self) -> Sides
        ensures { result ≡ form_lower self }
    {
        self.shape().lower
    }

    /// The form of a node of this kind that uses these upper sides, where its slot `left` leaves on
    /// the lower left and its slot `right` on the lower right, or none does; or none where there is no
    /// such form.
    pub fn of_node(kind: Kind, upper: Sides, left: Option<u8>, right: Option<u8>) -> Option<Form>
        ensures some { IfSome result (IsFormOf kind upper left right) }
        ensures none { IsNone result → (f : ℕ) → IsFormOf kind upper left right f → ⊥ }
    {
        let lower = Sides {
            left: left.is_some(),
            right: right.is_some(),
        };
        for number in 0..COUNT {
            let form = Form { number };
            if form.has_node(kind, upper, lower) {
                return Some(form);
            }
        }
        None
    }

    /// What goes out on the lower left and the lower right for what comes in on the upper left and
    /// the upper right: false on a side that isn't used. What an input form sends is given from
    /// outside.
    pub fn apply(self, left: bool, right: bool) -> (bool, bool)
        requires { form_node self ≢ Some Input }
        ensures left { result.0 ≡ form_value self left right Left }
        ensures right { result.1 ≡ form_value self left right Right }
    {
        let shape = self.shape();
        (
            shape.lower.left && shape.value(left, right, Side::Left),
            shape.lower.right && shape.value(left, right, Side::Right),
        )
    }

    // Whether it holds a node of this kind and uses these sides.
    fn has_node(self, kind: Kind, upper: Sides, lower: Sides) -> bool
        ensures { IsTrue result ↔ IsFormWith kind upper lower self }
    {
        match self.node() {
            Some(own) => own == kind && self.upper() == upper && self.lower() == lower,
            None => false,
        }
    }

    // What the table says of it.
    fn shape(self) -> Shape
        ensures { Some result ≡ shape_of self }
    {
        FORMS[usize::from(self.number)].1
    }
}
