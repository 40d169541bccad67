//! Sets of forms.
ghost use Rattle.std.specs.Prelude.{◌≡◌, ◌↔◌, ◌⊎◌, ℕ, IsTrue};
ghost use Rattle.bx_forms.specs.Forms.{IsForm};
ghost use Rattle.bx_forms.specs.FormSets.{IsIn};

use crate::Form;
use crate::table::COUNT;
use std::marker::Model;

/// A set of forms. Contracts see it as the list that says of each form in turn whether it is in it.
#[derive(Clone, Copy)]
pub struct FormSet {
    has: [bool; COUNT as usize],
}

impl Model for FormSet {
    ghost use Rattle.std.specs.Prelude.{List, Bool};

    ghost Value = { List Bool };

    ghost view = { λ set. set.has };

    ghost inverse = { λ has. record { has = has } };
}

impl FormSet {
    /// The set without forms.
    pub fn none() -> FormSet
        ensures { (form : ℕ) → IsIn result form → ⊥ }
    {
        FormSet {
            has: [false; COUNT as usize],
        }
    }

    /// The set of all forms.
    pub fn all() -> FormSet
        ensures { (form : ℕ) → IsIn result form ↔ IsForm form }
    {
        FormSet {
            has: [true; COUNT as usize],
        }
    }

    /// The set with this form beside those that it had.
    pub fn with(self, form: Form) -> FormSet
        ensures { (other : ℕ) → IsIn result other ↔ (IsIn self other ⊎ (other ≡ form)) }
    {
        let mut has = self.has;
        has[usize::from(form.number())] = true;
        FormSet { has }
    }

    /// Whether the form is in the set.
    pub fn has(self, form: Form) -> bool
        ensures { IsTrue result ↔ IsIn self form }
    {
        self.has[usize::from(form.number())]
    }
}
