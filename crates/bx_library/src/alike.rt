//! Forms that can't be told apart: two of one group with the same dots.
ghost use Rattle.std.specs.Prelude.{◌≡◌, ◌<◌, ◌↔◌, ℕ, length, IfSome, IsNone, IsTrue, OnOk, IfErr};
ghost use Rattle.bx_forms.specs.Forms.{form_count};
ghost use Rattle.bx_library.specs.Drawn.{lists_of};
ghost use Rattle.bx_library.specs.Alike.{AreSame, HasSamePair};
ghost use Rattle.bx_library.specs.Faults.{IsLeast};

use crate::{Dot, Group, LibraryFault};
use bx_forms::Form;

/// Refuses two forms of one group that have the same dots, by these lists of the dots of each form.
///
/// # Errors
///
/// `SameDots` with the least such form, and of its partners the least.
pub(crate) fn check_pairs(all: &[Vec<Dot>]) -> Result<(), LibraryFault>
    requires { length all.now ≡ form_count }
    ensures none { OnOk result ((f g : ℕ) → AreSame (lists_of all.now) f g → ⊥) }
    ensures err { IfErr result (HasSamePair (lists_of all.now)) }
{
    let mut number = 0;
    'firsts: while let Some(first) = Form::from_number(number) {
        if let Some(second) = same_as(all, first) {
            return Err(LibraryFault::SameDots(first, second));
        }
        number += 1;
    }
    Ok(())
}

// The first form behind this one that is of its group and has its dots.
fn same_as(all: &[Vec<Dot>], first: Form) -> Option<Form>
    requires { length all.now ≡ form_count }
    ensures some { IfSome result (IsLeast (AreSame (lists_of all.now) first)) }
    ensures none { IsNone result → (g : ℕ) → AreSame (lists_of all.now) first g → ⊥ }
{
    let mut number = first.number() + 1;
    'seconds: while let Some(second) = Form::from_number(number) {
        if are_same(all, first, second) {
            return Some(second);
        }
        number += 1;
    }
    None
}

// Whether two forms, of which the first has the smaller number, are of one group, offered, and have
// the same dots.
fn are_same(all: &[Vec<Dot>], first: Form, second: Form) -> bool
    requires count { length all.now ≡ form_count }
    requires order { first < second }
    ensures { IsTrue result ↔ AreSame (lists_of all.now) first second }
{
    if Group::of(first) != Group::of(second) {
        return false;
    }
    let dots = &all[usize::from(first.number())];
    if dots.is_empty() {
        return false;
    }
    same_list(dots, &all[usize::from(second.number())])
}

/// Whether two lists of dots are one.
pub fn same_list(dots: &[Dot], others: &[Dot]) -> bool
    ensures { IsTrue result ↔ (dots.now ≡ others.now) }
{
    dots.cmp(&others).is_eq()
}
