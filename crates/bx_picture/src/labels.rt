//! What a picture says beside its tiles: the names of the ports, and which node stands on which tile. Both come from a
//! module and from the places that a certificate gives its nodes.

use bx_cert::Spot;
use bx_draw::{Place, PortName};
use bx_engine::Module;
use bx_forms::Kind;
use bx_grid::Ratio;
use bx_logic::{Net, NoMemory};
use bx_network::Node;
use std::alloc::Global;

/// The names of ports, and the tile of each node.
#[derive(Drop)]
pub(crate) struct Labels<'a> {
    pub(crate) ports: Vec<PortName<'a>>,
    pub(crate) places: Vec<u32>,
}

/// Those of no module.
pub(crate) fn no_labels<'a>(alloc: Global) -> Labels<'a> {
    Labels {
        ports: Vec::new(alloc),
        places: Vec::new(alloc),
    }
}

/// Those of a module whose nodes stand at these places of a grid.
pub(crate) fn labels_of<'a>(
    alloc: Global,
    source: &'a Module,
    ratio: Ratio,
    spots: &[Spot],
) -> Result<Labels<'a>, NoMemory> {
    Ok(Labels {
        ports: ports_of(alloc, source, spots)?,
        places: places_of(alloc, ratio, spots)?,
    })
}

// The name of each port at the column of its node.
fn ports_of<'a>(
    alloc: Global,
    source: &'a Module,
    spots: &[Spot],
) -> Result<Vec<PortName<'a>>, NoMemory> {
    let mut ports = Vec::new(alloc);
    for v in 0..source.mapped.node_count() {
        if let (Some(spot), Some((name, place))) = (
            spots.get(v as usize),
            port_of(&source.net, source.mapped.node(v)),
        ) {
            ports.push(PortName {
                name,
                column: spot.x,
                place,
            })?;
        }
    }
    Ok(ports)
}

// The name of the port that a node stands for, and where it is written.
fn port_of(net: &Net, node: Node) -> Option<(&[u8], Place)> {
    match node.kind {
        Kind::Input if node.port < net.input_count() => {
            Some((net.input_name(node.port).as_slice(), Place::Above))
        }
        Kind::Output if node.port < net.output_count() => {
            Some((net.output_name(node.port).as_slice(), Place::Below))
        }
        _ => None,
    }
}

// The tile of each place. (They are on the grid, which has less than 2^32 tiles.)
fn places_of(alloc: Global, ratio: Ratio, spots: &[Spot]) -> Result<Vec<u32>, NoMemory> {
    let mut places = Vec::with_capacity(alloc, spots.len())?;
    for spot in spots {
        places.push(spot.y.wrapping_mul(ratio.w).wrapping_add(spot.x))?;
    }
    Ok(places)
}
