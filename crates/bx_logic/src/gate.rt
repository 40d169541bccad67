//! What a driver gives its net, once the values of the nets that it reads are known. Finding those is
//! left to the evaluation of a whole net.
ghost use Rattle.std.specs.Prelude.{◌≡◌, ◌<◌, List, Bool, Option, All, length, map};
ghost use Rattle.bx_logic.specs.Op.{conjunction, disjunction, parity, op_value};
ghost use Rattle.bx_logic.specs.Nets.{HasArity, IsDriver, arguments_of};
ghost use Rattle.bx_logic.specs.Values.{driver_value};
ghost use Rattle.bx_logic.specs.Known.{IsKnown, known_value};

use crate::{Driver, Op};

/// What a driver gives for these values of the inputs, and the known values of the nets that it reads.
pub(crate) fn driven_value(driver: &Driver, bits: &[bool], known: &[Option<bool>]) -> bool
    requires driver { IsDriver (length bits.now) (length known.now) driver.now }
    requires known { All (IsKnown known.now) (arguments_of driver.now) }
    ensures { result ≡ driver_value bits.now (known_value known.now) driver.now }
{
    match driver {
        Driver::Input(i) => bits[*i as usize],
        Driver::Constant(b) => *b,
        Driver::Gate(op, args) => gate_value(*op, args.as_slice(), known),
    }
}

// What a gate gives for the known values of the nets that it reads.
fn gate_value(op: Op, args: &[u32], known: &[Option<bool>]) -> bool
    requires arity { HasArity op args.now }
    requires within { All (λ m. m < length known.now) args.now }
    requires known { All (IsKnown known.now) args.now }
    ensures { result ≡ op_value op (map (known_value known.now) args.now) }
{
    let tally = tally_of(known, args);
    match op {
        Op::Buf | Op::Or => tally.any,
        Op::Not | Op::Nor => !tally.any,
        Op::And => tally.all,
        Op::Nand => !tally.all,
        Op::Xor => tally.odd,
        Op::Xnor => !tally.odd,
    }
}

// Whether all of some values are 1, whether any is, and whether an odd number of them are.
#[derive(Clone, Copy)]
struct Tally {
    all: bool,
    any: bool,
    odd: bool,
}

// What the values of these nets come to.
fn tally_of(known: &[Option<bool>], nets: &[u32]) -> Tally
    requires within { All (λ m. m < length known.now) nets.now }
    requires known { All (IsKnown known.now) nets.now }
    ensures all { result.all ≡ conjunction (map (known_value known.now) nets.now) }
    ensures any { result.any ≡ disjunction (map (known_value known.now) nets.now) }
    ensures odd { result.odd ≡ parity (map (known_value known.now) nets.now) }
{
    let mut all = true;
    let mut any = false;
    let mut odd = false;
    for net in nets {
        let value = known[*net as usize].unwrap();
        all &= value;
        any |= value;
        odd ^= value;
    }
    Tally { all, any, odd }
}
