//! The mapped network of a net, or the first reason why there is none. What it is stands in the definitions;
//! that it is a network, and computes what the net does, in the laws.
ghost use Rattle.std.specs.Prelude.{◌≡◌, ◌<◌, ◌≤◌, None, IfOk, IfErr, OnOk, length};
ghost use Rattle.bx_logic.specs.Behaviours.{SameBehaviour, net_behaviour};
ghost use Rattle.bx_network.specs.Networks.{IsNetwork};
ghost use Rattle.bx_network.specs.Values.{network_behaviour};
ghost use Rattle.bx_map.specs.FanOuts.{IsCellNet};
ghost use Rattle.bx_map.specs.Maps.{first_constant, mapping_of, node_count};
ghost use Rattle.bx_map.specs.Numbers.{numbering_of};
ghost use Rattle.bx_map.specs.Faults.{IsMapFault};
ghost use Rattle.bx_map.specs.declared.map.MapFault.TheVariants.{NoMemory as OutOfMemory};

use crate::cells::{Cells, NoCells, cells_of};
use crate::edges::edges_of;
use crate::fan_outs::FanOuts;
use crate::nodes::{count_nodes, nodes_of};
use bx_logic::{Net, NoMemory};
use bx_network::MappedNet;
use std::alloc::Global;

/// Why a net is not mapped, in the order in which the faults come.
#[derive(Clone, Copy, Debug)]
pub enum MapFault {
    /// The first output, in port order, that folds to a constant.
    ConstantOutput(u32),
    /// How many nodes there would be, where these are too many.
    TooManyNodes(u64),
    /// Memory was refused. It may come at any time.
    NoMemory,
}

impl From<NoMemory> for MapFault {
    ghost from_gives = { λ _ fault. fault ≡ OutOfMemory };

    fn from(_: NoMemory) -> Self {
        MapFault::NoMemory
    }
}

impl From<NoCells> for MapFault {
    ghost use Rattle.bx_map.specs.Faults.{fault_of};

    ghost from_gives = { λ refusal fault. fault ≡ fault_of refusal };

    fn from(refusal: NoCells) -> Self {
        match refusal {
            NoCells::Constant(output) => MapFault::ConstantOutput(output),
            NoCells::NoMemory => MapFault::NoMemory,
        }
    }
}

/// The mapped network of a net, where no output folds to a constant and it has at most so many nodes. Time
/// and memory are linear in nets and arguments; nodes that are too many are counted and not made.
pub fn map_net(alloc: Global, net: &Net, most: u32) -> Result<MappedNet, MapFault>
    requires { most ≤ 65536 }
    ensures mapped { IfOk result (λ network. network ≡ mapping_of net.now) }
    ensures no_constant { OnOk result (first_constant net.now ≡ None) }
    ensures few { OnOk result (node_count net.now ≤ most) }
    ensures fault { IfErr result (IsMapFault net.now most) }

    // What follows from it.
    ensures network { IfOk result IsNetwork }
    ensures behaviour { IfOk result (λ network. SameBehaviour (net_behaviour net.now)
        (network_behaviour (length net.now.inputs) network)) }
{
    let cells = cells_of(alloc, net)?;
    let count = count_nodes(&cells)?;
    if count > u64::from(most) {
        return Err(MapFault::TooManyNodes(count));
    }
    Ok(network_of(alloc, cells)?)
}

// The network of the nodes and edges of these cells.
fn network_of(alloc: Global, cells: Cells) -> Result<MappedNet, NoMemory>
    requires cells { IsCellNet cells }
    requires few { length (numbering_of cells).nodes < 4294967296 }
    requires network { IsNetwork (numbering_of cells) }
    ensures { IfOk result (λ network. network ≡ numbering_of cells) }
{
    let fan_outs = FanOuts::of(alloc, cells)?;
    let nodes = nodes_of(alloc, &fan_outs)?;
    let edges = edges_of(alloc, &fan_outs)?;
    MappedNet::new(alloc, nodes, edges)
}
