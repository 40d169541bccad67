//! To which node the way from each border leads. A way goes down from tile to tile, so that from the
//! last border to the first each is known from those below it.
ghost use Rattle.std.specs.Prelude.{◌≡◌, ◌+◌, ◌*◌, ◌/◌, ◌<◌, ℕ, length, Some, IfOk};
ghost use Rattle.bx_forms.specs.declared.side.Side.{Side};
ghost use Rattle.bx_grid.specs.Tiles.{tile_count, border as border_of, IsTile};
ghost use Rattle.bx_layout.specs.declared.layout.Layout.{Layout};
ghost use Rattle.bx_layout.specs.Layouts.{edge_on, enters};
ghost use Rattle.bx_network.specs.Networks.{Network};
ghost use Rattle.bx_trace.specs.Known.{IsLayoutOf, KnowsTargets, KnowsTargetsFrom, target_of};

use crate::passing::{exit, opposite};
use bx_forms::Side;
use bx_grid::{below, border};
use bx_layout::FormGrid;
use bx_logic::NoMemory;
use std::alloc::Global;

/// For each border the node to which an edge leads that it carries, in whatever layout has this form
/// grid and these nodes on its tiles. Time and memory are linear in tiles.
///
/// # Errors
///
/// `NoMemory` if memory is refused for the list.
pub fn targets(
    alloc: Global,
    grid: &FormGrid,
    nodes: &[Option<u32>],
) -> Result<Vec<Option<u32>>, NoMemory>
    requires { length nodes.now ≡ tile_count grid.now.ratio }
    ensures whole { IfOk result (λ targets. length targets.items ≡ 2 * tile_count grid.now.ratio) }
    ensures known { IfOk result (λ targets. (N : Network) (L : Layout) →
        IsLayoutOf N grid.now nodes.now L → KnowsTargets N L targets.items) }
{
    let ratio = grid.ratio();
    let borders = 2 * (ratio.w * ratio.h);
    let mut targets = vec![in alloc; None; borders as usize]?;
    for b in (0..borders).rev() {
        targets[b as usize] = target(grid, nodes, &targets, b);
    }
    Ok(targets)
}

// The node to which the way from this border leads, where those further on are known.
fn target(grid: &FormGrid, nodes: &[Option<u32>], targets: &[Option<u32>], b: u32) -> Option<u32>
    requires nodes { length nodes.now ≡ tile_count grid.now.ratio }
    requires targets { length targets.now ≡ 2 * tile_count grid.now.ratio }
    requires border { b < 2 * tile_count grid.now.ratio }
    ensures { (N : Network) (L : Layout) (e : ℕ) → IsLayoutOf N grid.now nodes.now L →
        KnowsTargetsFrom N L targets.now (b + 1) → edge_on L b ≡ Some e →
        result ≡ target_of N e }
{
    let side = side_of(b);
    let tile = below(grid.ratio(), b / 2, side)?;
    arrival(grid, nodes, targets, tile, opposite(side))
}

// The node to which a way leads that enters this tile on this upper side: the one that stands there,
// or that to which the form hands it on.
fn arrival(
    grid: &FormGrid,
    nodes: &[Option<u32>],
    targets: &[Option<u32>],
    tile: u32,
    from: Side,
) -> Option<u32>
    requires nodes { length nodes.now ≡ tile_count grid.now.ratio }
    requires targets { length targets.now ≡ 2 * tile_count grid.now.ratio }
    requires tile { IsTile grid.now.ratio tile }
    ensures { (N : Network) (L : Layout) (e : ℕ) → IsLayoutOf N grid.now nodes.now L →
        KnowsTargetsFrom N L targets.now (2 * tile) → enters L tile from ≡ Some e →
        result ≡ target_of N e }
{
    let _grid = grid.ratio();
    match nodes[tile as usize] {
        Some(v) => Some(v),
        None => {
            let form = grid.tile(tile)?;
            if form.node().is_some() {
                return None;
            }
            let next = exit(form, from)?;
            targets[border(tile, next) as usize]
        }
    }
}

/// On which side of its tile a border is.
pub fn side_of(b: u32) -> Side
    ensures { border_of (b / 2) result ≡ b }
{
    if b % 2 == 0 { Side::Left } else { Side::Right }
}
