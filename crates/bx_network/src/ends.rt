//! Which edge leaves a node by a slot, and which enters it by an operand, each found at one place.
ghost use Rattle.std.specs.Prelude.{◌≡◌, ◌<◌, ◌+◌, ◌*◌, IfOk, slice_index, length};
ghost use Rattle.bx_forms.specs.Kinds.{operands, slots};
ghost use Rattle.bx_network.specs.Networks.{IsNetwork, network_of, HasKind};
ghost use Rattle.bx_network.specs.Mapped.{AreEnds};

use crate::{Edge, Node};
use bx_logic::NoMemory;
use std::alloc::Global;

// The most slots or operands that a node of any kind has.
pub const WAYS: usize = 2;

// The number of the edge that leaves node v by slot s at place 2 * v + s of `outs`, and of the one that
// enters it by operand k at place 2 * v + k of `ins`. Where there is no such edge the number means nothing.
#[derive(Drop)]
pub struct Ends {
    pub outs: Vec<u32>,
    pub ins: Vec<u32>,
}

impl Ends {
    // Those of a network. Time and memory are linear.
    pub fn of(alloc: Global, nodes: &[Node], edges: &[Edge]) -> Result<Ends, NoMemory>
        requires { IsNetwork (network_of nodes.now edges.now) }
        ensures { IfOk result (λ ends.
            AreEnds (network_of nodes.now edges.now) ends.outs.items ends.ins.items) }
    {
        let mut outs = vec![in alloc; 0u32; WAYS * nodes.len()]?;
        let mut ins = vec![in alloc; 0u32; WAYS * nodes.len()]?;
        for (number, edge) in edges.iter().enumerate() {
            outs[WAYS * edge.source as usize + usize::from(edge.slot)] = number as u32;
            ins[WAYS * edge.target as usize + usize::from(edge.operand)] = number as u32;
        }
        Ok(Ends { outs, ins })
    }
}
