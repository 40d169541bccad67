//! The nodes of a mapped network: each cell with its fans, and then the outputs.
ghost use Rattle.std.specs.Prelude.{◌≡◌, ◌<◌, ◌≤◌, ◌+◌, ◌^◌, ◌++◌, IfOk, OnOk, OnErr, length, replicate};
ghost use Rattle.bx_map.specs.FanOuts.{IsCellNet};
ghost use Rattle.bx_map.specs.Cells.{operands_of};
ghost use Rattle.bx_map.specs.Numbers.{cell_node, cell_nodes, fan_node, numbering_of, output_nodes};

use crate::cell::Cell;
use crate::cells::Cells;
use crate::fan_outs::FanOuts;
use bx_forms::Kind;
use bx_logic::NoMemory;
use bx_network::Node;
use std::alloc::Global;

// How many nodes there are: two for each output, one of which stands for its use of a cell, and one for
// each other use. It takes no memory, and refuses where they are too many for a number of 64 bits.
pub fn count_nodes(net: &Cells) -> Result<u64, NoMemory>
    requires { IsCellNet net.now }
    ensures count { IfOk result (λ count. count ≡ length (numbering_of net.now).nodes) }
    ensures past { OnErr result (2 ^ 64 ≤ length (numbering_of net.now).nodes) }
{
    let cells = net.cells();
    let outputs = net.outputs().len() as u64;
    let mut count = sum_of(outputs, outputs)?;
    for cell in cells {
        count = sum_of(count, operand_count(*cell))?;
    }
    Ok(count)
}

// The sum of two numbers, where it fits. No memory holds as many nodes as make it pass.
fn sum_of(a: u64, b: u64) -> Result<u64, NoMemory>
    ensures sum { IfOk result (λ sum. sum ≡ a + b) }
    ensures past { OnErr result (2 ^ 64 ≤ a + b) }
{
    a.checked_add(b).ok_or(NoMemory)
}

// How many values a cell reads.
fn operand_count(cell: Cell) -> u64
    ensures { result ≡ length (operands_of cell) }
{
    match cell {
        Cell::Input(_) => 0,
        Cell::Not(_) => 1,
        Cell::Gate(_, _, _) => 2,
    }
}

// All nodes, in time and memory linear in their number.
pub fn nodes_of(alloc: Global, fan_outs: &FanOuts) -> Result<Vec<Node>, NoMemory>
    ensures { IfOk result (λ nodes. nodes.items ≡ (numbering_of fan_outs.now).nodes) }
{
    let mut nodes = Vec::new(alloc);
    for cell in 0..fan_outs.cells().len() {
        put_cell_nodes(&mut nodes, fan_outs, cell)?;
    }
    put_output_nodes(&mut nodes, fan_outs.outputs())?;
    Ok(nodes)
}

// Appends the node of a cell and its fans.
fn put_cell_nodes(nodes: &mut Vec<Node>, fan_outs: &FanOuts, cell: usize) -> Result<(), NoMemory>
    requires { cell < length fan_outs.now.cells }
    ensures { OnOk result (nodes.new.items ≡ nodes.old.items ++ cell_nodes fan_outs.now cell) }
{
    let own = cell_node(fan_outs.cells()[cell]);
    nodes.push(own)?;
    let consumers = fan_outs.consumers(cell);
    put_fans(nodes, consumers.len() - 1)
}

// The node of a cell.
fn cell_node(cell: Cell) -> Node
    ensures { result ≡ cell_node cell }
{
    match cell {
        Cell::Input(port) => Node {
            kind: Kind::Input,
            port,
        },
        Cell::Not(_) => Node {
            kind: Kind::Not,
            port: 0,
        },
        Cell::Gate(kind, _, _) => Node { kind, port: 0 },
    }
}

// Appends so many fans.
fn put_fans(nodes: &mut Vec<Node>, count: usize) -> Result<(), NoMemory>
    ensures { OnOk result (nodes.new.items ≡ nodes.old.items ++ replicate count fan_node) }
{
    for _ in 0..count {
        nodes.push(Node {
            kind: Kind::Fan,
            port: 0,
        })?;
    }
    Ok(())
}

// Appends a node for each output.
fn put_output_nodes(nodes: &mut Vec<Node>, outputs: &[usize]) -> Result<(), NoMemory>
    requires { length outputs.now < 4294967296 }
    ensures { OnOk result (nodes.new.items ≡ nodes.old.items ++ output_nodes 0 outputs.now) }
{
    for port in 0..outputs.len() {
        nodes.push(Node {
            kind: Kind::Output,
            port: port as u32,
        })?;
    }
    Ok(())
}
