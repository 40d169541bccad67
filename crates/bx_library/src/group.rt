//! The groups of forms. In the first row of a grid stand inputs alone, in the last row outputs
//! alone, and between them the others: so a tile is known by its dots among the forms of one group,
//! and forms of two groups may have the same dots. What stands in which row is for the crates above
//! to see to.
ghost use Rattle.std.specs.Prelude.{◌≡◌};
ghost use Rattle.bx_library.specs.Groups.{group_of};

use bx_forms::{Form, Kind};

/// A group of forms, in which each is known by its dots.
#[derive(Clone, Copy, PartialEq, Eq)]
pub enum Group {
    /// The forms of inputs.
    Inputs,
    /// The forms of outputs.
    Outputs,
    /// All other forms.
    Others,
}

impl Group {
    /// The group of a form.
    pub fn of(form: Form) -> Group
        ensures { result ≡ group_of form }
    {
        match form.node() {
            Some(Kind::Input) => Group::Inputs,
            Some(Kind::Output) => Group::Outputs,
            _ => Group::Others,
        }
    }
}
