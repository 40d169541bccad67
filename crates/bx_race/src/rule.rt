//! The rule of a race's two words, and what each kind of step tells. None of it is there when the
//! program runs.

use crate::view::{Course, View};
use atomic_table::{Join, Play, Split, TableRule};

pub struct Raced;

impl TableRule<(), View, Course> for Raced {
    ghost use Rattle.bx_race.specs.Rule.{Rule, fresh};

    ghost holds = { Rule };

    ghost first = { λ course. fresh course.n course.seats };
}

pub struct Claims;

impl Play<(), View> for Claims {
    ghost use Rattle.bx_race.specs.Rule.{claims};

    ghost then = { claims };
}

pub struct Offers;

impl Play<(), View> for Offers {
    ghost use Rattle.bx_race.specs.Rule.{offers};

    ghost then = { offers };
}

pub struct Looks;

impl Play<(), View> for Looks {
    ghost use Rattle.bx_race.specs.Rule.{looks};

    ghost then = { looks };
}

pub struct Closes;

impl Play<(), View> for Closes {
    ghost use Rattle.bx_race.specs.Rule.{closes};

    ghost then = { closes };
}

/// Cuts off a seat of its own.
pub struct OneSeat;

impl Split<View> for OneSeat {
    ghost use Rattle.bx_race.specs.Rule.{without_seat, one_seat};

    ghost left = { without_seat };

    ghost right = { one_seat };
}

/// Makes one seat of two.
pub struct Joined;

impl Join<View> for Joined {
    ghost use Rattle.bx_race.specs.Rule.{joint, spent};

    ghost both = { joint };

    ghost spent = { spent };
}
