//! The numbers of the variables of a formula, for those who read its answer.
ghost use Rattle.std.specs.Prelude.{◌≡◌, ◌<◌, ◌^◌};
ghost use Rattle.bx_encode.specs.Variables.{number, IsVariable};
ghost use Rattle.bx_encode.specs.Sizes.{IsFrame};

use crate::frame::Frame;
use crate::variable::Variable;
use bx_grid::Ratio;
use bx_network::MappedNet;

/// The most nodes of a network of which a formula is made.
pub const MOST_NODES: u32 = 96;

/// The most tiles of a ratio of which a formula is made.
pub const MOST_AREA: u32 = 144;

/// The variable's number, as the formula has it.
pub fn var_of(net: &MappedNet, ratio: Ratio, x: Variable) -> u32
    requires frame { IsFrame net.now ratio }
    requires variable { IsVariable net.now ratio x }
    ensures is { result ≡ number net.now ratio x }
    ensures above { 0 < result }
    ensures few { result < 2 ^ 31 }
{
    let frame = Frame { net, ratio };
    frame.number(x)
}
