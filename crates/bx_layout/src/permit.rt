//! Permits: which forms may stand on which tiles of a grid. A permit knows nothing of networks.
ghost use Rattle.std.specs.Prelude.{ℕ, ◌↔◌, IsTrue};
ghost use Rattle.bx_forms.specs.FormSets.{IsIn};
ghost use Rattle.bx_grid.specs.declared.ratio.Ratio.{Ratio};
ghost use Rattle.bx_layout.specs.Permits.{Allows, test_of};

use bx_forms::{Form, FormSet};
use bx_grid::Ratio;
use std::marker::Model;

/// Says of each tile of a grid of any ratio which forms may stand there. Contracts see it as the
/// list that says of each form in turn whether it may.
#[derive(Clone, Copy)]
pub struct Permit {
    forms: FormSet,
}

impl Model for Permit {
    ghost use Rattle.std.specs.Prelude.{List, Bool};

    ghost Value = { List Bool };

    ghost view = { λ permit. permit.forms };

    ghost inverse = { λ forms. record { forms = forms } };
}

impl Permit {
    /// The permit of the same forms on all tiles. Takes no memory.
    pub fn same(forms: FormSet) -> Permit
        ensures { (ratio : Ratio) (t form : ℕ) →
            Allows (test_of result) ratio t form ↔ IsIn forms form }
    {
        Permit { forms }
    }

    /// Whether the form may stand on this tile. Takes no memory.
    pub fn allows(&self, ratio: Ratio, tile: u32, form: Form) -> bool
        ensures { IsTrue result ↔ Allows (test_of self.now) ratio tile form }
    {
        let _everywhere = (ratio, tile);
        self.forms.has(form)
    }
}
