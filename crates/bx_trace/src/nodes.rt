//! Which node stands on each tile.
ghost use Rattle.std.specs.Prelude.{◌≡◌, ◌≤◌, ◌<◌, ◌^◌, length, IfOk, IfSome, IsNone};
ghost use Rattle.bx_trace.specs.Known.{AreApartOn, AreNodesAt};

use bx_logic::NoMemory;
use std::alloc::Global;

/// For each of so many tiles the node that has its place there, or none; or none where a place is
/// off the grid or has two nodes. Time and memory are linear in tiles and nodes.
///
/// # Errors
///
/// `NoMemory` if memory is refused for the list.
pub fn nodes_at(
    alloc: Global,
    tiles: u32,
    places: &[u32],
) -> Result<Option<Vec<Option<u32>>>, NoMemory>
    requires { length places.now < 2 ^ 32 }
    ensures whole { IfOk result (λ found. IfSome found (λ nodes. length nodes.items ≡ tiles)) }
    ensures some { IfOk result (λ found. IfSome found (λ nodes.
        AreNodesAt places.now nodes.items)) }
    ensures none { IfOk result (λ found. IsNone found → AreApartOn places.now tiles → ⊥) }
{
    let mut nodes = vec![in alloc; None; tiles as usize]?;
    for v in 0..places.len() {
        let tile = places[v] as usize;
        if tile >= nodes.len() || nodes[tile].is_some() {
            return Ok(None);
        }
        nodes[tile] = Some(v as u32);
    }
    Ok(Some(nodes))
}
