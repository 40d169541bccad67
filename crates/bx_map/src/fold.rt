//! The fold over the walk: the value of each net, and the cells that are made for them. Constants are
//! folded away; equal operands are not.
ghost use Rattle.std.specs.List.{range_with_len};
ghost use Rattle.std.specs.Prelude.{◌≡◌, ◌<◌, length, map, All, IfOk};
ghost use Rattle.bx_logic.specs.Nets.{IsNet, arguments_of};
ghost use Rattle.bx_map.specs.declared.cell.Cell.TheVariants.{Input};
ghost use Rattle.bx_map.specs.Folds.{fold_of, with_cell, inverse_of, gate_kind, with_constant, combination_of, plain_op, single_fold, chain_of, gate_fold, fold_value, driver_fold, folding};

use crate::cell::{Cell, Value};
use crate::walk::walk_order;
use bx_forms::Kind;
use bx_logic::{Driver, Net, NoMemory, Op};
use std::alloc::Global;

/// The value of each net, and the cells that were made for them. A net that the walk doesn't reach has
/// a constant.
#[derive(Drop)]
pub(crate) struct NetFold {
    pub(crate) values: Vec<Value>,
    pub(crate) cells: Vec<Cell>,
}

/// Folds the nets in the order of the walk.
pub(crate) fn fold_net(alloc: Global, net: &Net) -> Result<NetFold, NoMemory>
    ensures values { IfOk result (λ f. f.values.items ≡ (folding net.now).values) }
    ensures cells { IfOk result (λ f. f.cells.items ≡ (folding net.now).cells) }
    ensures whole { IfOk result (λ f. length f.values.items ≡ length net.now.drivers) }
    ensures net { IfOk result (λ f. IsNet net.now) }
{
    let order = walk_order(alloc, net)?;
    let mut values = vec![in alloc; Value::Constant(false); net.len() as usize]?;
    let mut cells = input_cells(alloc, net.input_count())?;
    for n in &order {
        values[*n as usize] = driver_value(net.driver(*n), &values, &mut cells)?;
    }
    Ok(NetFold { values, cells })
}

// The cells of so many inputs, in port order.
fn input_cells(alloc: Global, inputs: u32) -> Result<Vec<Cell>, NoMemory>
    ensures { IfOk result (λ cells. cells.items ≡ map Input (range_with_len 0 inputs)) }
{
    let mut cells = Vec::new(alloc);
    for port in 0..inputs {
        cells.push(Cell::Input(port))?;
    }
    Ok(cells)
}

// The value of a driver, by the values of the nets that it reads.
fn driver_value(driver: &Driver, values: &[Value], cells: &mut Vec<Cell>) -> Result<Value, NoMemory>
    requires { All (λ m. m < length values.now) (arguments_of driver.now) }
    ensures { IfOk result (λ value. fold_of value cells.new.items
        ≡ driver_fold values.now cells.old.items driver.now) }
{
    match driver {
        Driver::Input(port) => Ok(Value::Signal(*port as usize)),
        Driver::Constant(bit) => Ok(Value::Constant(*bit)),
        Driver::Gate(op, args) => gate_value(*op, args.as_slice(), values, cells),
    }
}

// The value of a gate that reads these nets.
fn gate_value(
    op: Op,
    args: &[u32],
    values: &[Value],
    cells: &mut Vec<Cell>,
) -> Result<Value, NoMemory>
    requires some { 0 < length args.now }
    requires within { All (λ m. m < length values.now) args.now }
    ensures { IfOk result (λ value. fold_of value cells.new.items
        ≡ gate_fold op cells.old.items (map (fold_value values.now) args.now)) }
{
    let first = values[args[0] as usize];
    if args.len() == 1 {
        single_value(op, first, cells)
    } else {
        chained_value(op, first, &args[1..], values, cells)
    }
}

// The first value combined with those of further nets, the last one by the gate's own operation.
fn chained_value(
    op: Op,
    first: Value,
    further: &[u32],
    values: &[Value],
    cells: &mut Vec<Cell>,
) -> Result<Value, NoMemory>
    requires { All (λ m. m < length values.now) further.now }
    ensures { IfOk result (λ value. fold_of value cells.new.items
        ≡ chain_of op (fold_of first cells.old.items)
        (map (fold_value values.now) further.now)) }
{
    let mut value = first;
    for (k, net) in further.iter().enumerate() {
        let step = if k + 1 == further.len() {
            op
        } else {
            plain_op(op)
        };
        value = combined_value(step, value, values[*net as usize], cells)?;
    }
    Ok(value)
}

// The operation by which all arguments but the last are combined.
fn plain_op(op: Op) -> Op
    ensures { result ≡ plain_op op }
{
    match op {
        Op::Nand => Op::And,
        Op::Nor => Op::Or,
        Op::Xnor => Op::Xor,
        Op::Buf | Op::Not | Op::And | Op::Or | Op::Xor => op,
    }
}

// The value of an operation of one value.
fn single_value(op: Op, value: Value, cells: &mut Vec<Cell>) -> Result<Value, NoMemory>
    ensures { IfOk result (λ made. fold_of made cells.new.items
        ≡ single_fold op cells.old.items value) }
{
    match op {
        Op::Not | Op::Nand | Op::Nor | Op::Xnor => inverted_value(value, cells),
        Op::Buf | Op::And | Op::Or | Op::Xor => Ok(value),
    }
}

// The value of an operation of two values.
fn combined_value(op: Op, a: Value, b: Value, cells: &mut Vec<Cell>) -> Result<Value, NoMemory>
    ensures { IfOk result (λ value. fold_of value cells.new.items
        ≡ combination_of op cells.old.items a b) }
{
    match a {
        Value::Constant(bit) => constant_value(op, bit, b, cells),
        Value::Signal(source) => match b {
            Value::Constant(bit) => constant_value(op, bit, a, cells),
            Value::Signal(other) => new_cell(Cell::Gate(kind_of_gate(op), source, other), cells),
        },
    }
}

// The value of an operation of a constant and a value.
fn constant_value(op: Op, bit: bool, value: Value, cells: &mut Vec<Cell>) -> Result<Value, NoMemory>
    ensures { IfOk result (λ made. fold_of made cells.new.items
        ≡ with_constant op bit cells.old.items value) }
{
    match (op, bit) {
        (Op::And, false) => Ok(Value::Constant(false)),
        (Op::Nand, false) => Ok(Value::Constant(true)),
        (Op::Or, true) => Ok(Value::Constant(true)),
        (Op::Nor, true) => Ok(Value::Constant(false)),
        (Op::And, true) => Ok(value),
        (Op::Or, false) => Ok(value),
        (Op::Xor, false) => Ok(value),
        (Op::Xnor, true) => Ok(value),
        (Op::Nand, true) => inverted_value(value, cells),
        (Op::Nor, false) => inverted_value(value, cells),
        (Op::Xor, true) => inverted_value(value, cells),
        (Op::Xnor, false) => inverted_value(value, cells),
        (Op::Buf, _) => Ok(value),
        (Op::Not, _) => inverted_value(value, cells),
    }
}

// Not of a value: a constant has no cell.
fn inverted_value(value: Value, cells: &mut Vec<Cell>) -> Result<Value, NoMemory>
    ensures { IfOk result (λ made. fold_of made cells.new.items
        ≡ inverse_of cells.old.items value) }
{
    match value {
        Value::Constant(bit) => Ok(Value::Constant(!bit)),
        Value::Signal(source) => new_cell(Cell::Not(source), cells),
    }
}

// The value of a new cell behind these.
fn new_cell(cell: Cell, cells: &mut Vec<Cell>) -> Result<Value, NoMemory>
    ensures { IfOk result (λ value. fold_of value cells.new.items
        ≡ with_cell cells.old.items cell) }
{
    let number = cells.len();
    cells.push(cell)?;
    Ok(Value::Signal(number))
}

// The kind of the cell that an operation of two signals makes.
fn kind_of_gate(op: Op) -> Kind
    ensures { result ≡ gate_kind op }
{
    match op {
        Op::Buf | Op::And => Kind::And,
        Op::Not | Op::Nand => Kind::Nand,
        Op::Or => Kind::Or,
        Op::Nor => Kind::Nor,
        Op::Xor => Kind::Xor,
        Op::Xnor => Kind::Xnor,
    }
}
