//! Bounds on the earliest and the latest row of a node. Both rows may be negative, so they are
//! compared by sums.
ghost use Rattle.std.specs.Prelude.{◌↔◌, ◌<◌, IsTrue, length};
ghost use Rattle.bx_network.specs.Windows.{EarliestFrom, LatestTo};
ghost use Rattle.bx_bounds.specs.Windows.{IsEarliestFrom, IsLatestTo};

use bx_forms::Kind;
use bx_network::MappedNet;

// Whether the node's earliest row is at least this one, where there are so many rows.
pub fn is_earliest_from(net: &MappedNet, v: u32, row: u32, height: u32) -> bool
    requires { v < length net.now.nodes }
    ensures { IsTrue result ↔ IsEarliestFrom net.now v row height }
{
    earliest_from(net.node(v).kind, net.down(v), row, height)
}

// Whether the node's latest row is at most this one.
pub fn is_latest_to(net: &MappedNet, v: u32, row: u32, height: u32) -> bool
    requires { v < length net.now.nodes }
    ensures { IsTrue result ↔ IsLatestTo net.now v row height }
{
    latest_to(net.node(v).kind, net.up(v), row, height)
}

fn earliest_from(kind: Kind, down: u32, row: u32, height: u32) -> bool
    ensures { IsTrue result ↔ EarliestFrom kind down height row }
{
    match kind {
        Kind::Input => row == 0,
        Kind::Output => row < height,
        _ => row <= down,
    }
}

fn latest_to(kind: Kind, up: u32, row: u32, height: u32) -> bool
    ensures { IsTrue result ↔ LatestTo kind up height row }
{
    match kind {
        Kind::Input => true,
        Kind::Output => u64::from(height) <= u64::from(row) + 1,
        _ => u64::from(height) <= u64::from(row) + u64::from(up) + 1,
    }
}
