//! The largest number of lanes, counted from the kinds of the nodes alone, before there is a lane.
ghost use Rattle.std.specs.Prelude.{◌≡◌, ◌≤◌, ◌+◌, length};
ghost use Rattle.bx_quick.specs.LaneStates.{lanes_after as count_after, start_of, width_of as largest_count};

use crate::walk::is_input;
use bx_forms::Kind;
use bx_network::MappedNet;

// The largest number of lanes.
pub fn width_of(net: &MappedNet) -> u32
    requires { length net.now.nodes ≤ 4096 }
    ensures is { result ≡ largest_count net.now }
    ensures few { result ≤ 8192 }
    ensures some { 1 ≤ length net.now.nodes → 1 ≤ result }
{
    let mut lanes = input_count(net);
    let mut most = 0;
    for v in 0..net.node_count() {
        most = lanes.max(most);
        lanes = lanes_after(net.node(v).kind, lanes);
    }
    lanes.max(most)
}

// How many inputs there are.
fn input_count(net: &MappedNet) -> u32
    requires { length net.now.nodes ≤ 4096 }
    ensures is { result ≡ length (start_of net.now).lanes }
    ensures few { result ≤ 4096 }
{
    let mut count = 0;
    for v in 0..net.node_count() {
        if is_input(net.node(v).kind) {
            count += 1;
        }
    }
    count
}

// How many lanes there are behind a node of this kind.
fn lanes_after(kind: Kind, lanes: u32) -> u32
    requires { lanes ≤ 8192 }
    ensures is { result ≡ count_after kind lanes }
    ensures few { result ≤ lanes + 1 }
{
    match kind {
        Kind::Input | Kind::Output | Kind::Not => lanes,
        Kind::Fan => lanes + 1,
        _ => lanes.saturating_sub(1),
    }
}
