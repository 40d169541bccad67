//! The form grid of a legal layout. It is sound, and with the pins where the nodes stand it
//! computes the network.
ghost use Rattle.std.specs.Prelude.{◌≡◌, ◌<◌, ℕ, IfOk};
ghost use Rattle.bx_layout.specs.Grids.{IsSound};
ghost use Rattle.bx_layout.specs.Permits.{all_forms};
ghost use Rattle.bx_layout.specs.Pins.{pins_of, Computes};
ghost use Rattle.bx_layout.specs.TileForms.{IsFormGridOf};
ghost use Rattle.bx_layout.specs.Legal.{IsLegal};

use crate::grid::FormGrid;
use crate::layout::Layout;
use crate::tile_form::tile_form;
use bx_logic::NoMemory;
use bx_network::MappedNet;
use std::alloc::Global;

/// The form of each tile of a legal layout.
///
/// # Errors
///
/// `NoMemory` if memory is refused for the tiles.
pub fn form_grid(alloc: Global, net: &MappedNet, layout: &Layout) -> Result<FormGrid, NoMemory>
    requires { IsLegal net.now all_forms layout.now }
    ensures forms { IfOk result (IsFormGridOf net.now layout.now) }
    ensures sound { IfOk result IsSound }
    ensures computes { IfOk result (λ grid. (inputs : ℕ) →
        Computes inputs grid (pins_of net.now layout.now) net.now) }
{
    let ratio = layout.ratio;
    let mut tiles = Vec::with_capacity(alloc, ratio.w as usize * ratio.h as usize)?;
    for tile in 0..ratio.w * ratio.h {
        tiles.push(tile_form(net, layout, tile))?;
    }
    Ok(FormGrid::new(ratio, tiles))
}
