//! A dot library. The type keeps that the width is even, that each form's dots lie inside the tile,
//! none of them twice, and that no two forms of a group have the same dots. What bytes give it is
//! for the reader to say.
ghost use Rattle.std.specs.Prelude.{◌≡◌, ◌↔◌, ◌⊎◌, ◌<◌, ℕ, [], length, slice_index_or};
ghost use Rattle.bx_forms.specs.Forms.{form_count};
ghost use Rattle.bx_forms.specs.FormSets.{IsIn};
ghost use Rattle.bx_library.specs.Drawn.{lists_of};
ghost use Rattle.bx_library.specs.Tiles.{IsLibrary, IsOffered, form_dots};

use crate::Dot;
use bx_forms::{Form, FormSet};
use std::marker::Model;

/// The size of a tile, and the dots of each form that is offered. Contracts see it as `Tiles`.
#[derive(Drop)]
pub struct Library {
    width: u32,
    height: u32,
    // Of each form, in the order of their numbers: none where it isn't offered.
    dots: Vec<Vec<Dot>>,
}

impl Model for Library {
    ghost use Rattle.bx_library.specs.Drawn.{lists_of};
    ghost use Rattle.bx_library.specs.Tiles.{Tiles, IsLibrary};

    ghost Value = { Tiles };

    ghost view = { λ l. record { width = l.width; height = l.height; dots = lists_of l.dots.items } };

    ghost invariant = { λ l. IsLibrary (record { width = l.width; height = l.height; dots = lists_of l.dots.items }) };
}

impl Library {
    /// The library of these parts. Takes no memory.
    pub(crate) fn new(width: u32, height: u32, dots: Vec<Vec<Dot>>) -> Self
        requires { IsLibrary
            (record { width = width; height = height; dots = lists_of dots.items }) }
        ensures { result ≡ record { width = width; height = height; dots = lists_of dots.items } }
    {
        Library {
            width,
            height,
            dots,
        }
    }

    /// How many dimers a row of a tile has.
    pub fn width(&self) -> u32
        ensures width { result ≡ self.now.width }
        ensures kept { IsLibrary self.now }
    {
        self.width
    }

    /// How many rows of dimers a tile has.
    pub fn height(&self) -> u32
        ensures height { result ≡ self.now.height }
        ensures kept { IsLibrary self.now }
    {
        self.height
    }

    /// The forms that are offered.
    pub fn offers(&self) -> FormSet
        ensures { (form : ℕ) → IsIn result form ↔ IsOffered self.now form }
    {
        offered(&self.dots)
    }

    /// The dots of a form, in order.
    pub fn dots(&self, form: Form) -> &[Dot]
        requires { IsOffered self.now form }
        ensures dots { result.now ≡ form_dots self.now form }
        ensures kept { IsLibrary self.now }
    {
        &self.dots[usize::from(form.number())]
    }
}

// The forms that have a dot, by these lists of the dots of each form.
fn offered(all: &[Vec<Dot>]) -> FormSet
    requires { length all.now ≡ form_count }
    ensures { (form : ℕ) →
        IsIn result form ↔ (0 < length (slice_index_or (lists_of all.now) form [])) }
{
    let mut set = FormSet::none();
    let mut number = 0;
    'forms: while let Some(form) = Form::from_number(number) {
        set = with_offered(set, form, &all[usize::from(number)]);
        number += 1;
    }
    set
}

// The set, and in it the form if it has a dot.
fn with_offered(set: FormSet, form: Form, dots: &[Dot]) -> FormSet
    ensures { (other : ℕ) →
        IsIn result other ↔ (IsIn set other ⊎ ((other ≡ form) × (0 < length dots.now))) }
{
    if dots.is_empty() { set } else { set.with(form) }
}
