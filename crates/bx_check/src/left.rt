//! What propagation finds in a clause: how many of its literals aren't false, up to two.
ghost use Rattle.bx_check.specs.Left.{IsLeft};

use crate::assignment::Assignment;
use bx_cnf::Lit;

/// The literals of a clause that aren't false: none, this one, or more than one.
pub(crate) enum Left {
    Nothing,
    One(Lit),
    More,
}

/// How many literals of a clause aren't false.
pub(crate) fn left_of(assignment: &Assignment, clause: &[Lit]) -> Left
    ensures { IsLeft assignment.now clause.now result }
{
    let mut left = None;
    for lit in clause {
        if !assignment.is_false(*lit) {
            if left.is_some() {
                return Left::More;
            }
            left = Some(*lit);
        }
    }
    match left {
        Some(lit) => Left::One(lit),
        None => Left::Nothing,
    }
}
