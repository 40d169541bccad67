//! The tiles of the grid, row by row, from the list of operations. Time and memory go by the tiles alone.
ghost use Rattle.std.specs.Prelude.{◌≡◌, ◌++◌, None, IfOk, OnOk};
ghost use Rattle.std.specs.Option.{option_copied};
ghost use Rattle.bx_quick.specs.Grids.{leaves_left as leaves_left_of, lane_form as lane_form_of, lane_tile as lane_tile_of, input_of, wire_of, operation_tile as operation_tile_of, output_tile as output_tile_of, row_of, rows_of};

use crate::operation::{
    INPUT_L, INPUT_R, OUTPUT_L, Operation, WIRE_LL, WIRE_LR, WIRE_RL, WIRE_RR, form,
    gives_as_right, takes_as_right,
};
use bx_forms::Form;
use bx_logic::NoMemory;
use std::alloc::Global;

// The tiles of a grid of this width: two rows for each operation, and two behind them, where so many lanes
// are left.
pub fn tiles_of(
    alloc: Global,
    width: u32,
    operations: &[Operation],
    left: u32,
) -> Result<Vec<Option<Form>>, NoMemory>
    ensures { IfOk result (λ tiles. tiles.items ≡ rows_of width left None operations.now) }
{
    let mut tiles = Vec::new(alloc);
    let mut before = None;
    for op in operations {
        put_lanes(&mut tiles, width, before, Some(op), u32::from(op.lanes))?;
        put_operation(&mut tiles, width, op)?;
        before = Some(op);
    }
    put_lanes(&mut tiles, width, before, None, left)?;
    put_outputs(&mut tiles, width, left)?;
    Ok(tiles)
}

// Appends the row between two operations, where there are so many lanes.
fn put_lanes(
    tiles: &mut Vec<Option<Form>>,
    width: u32,
    before: Option<&Operation>,
    next: Option<&Operation>,
    lanes: u32,
) -> Result<(), NoMemory>
    ensures { OnOk result (tiles.new.items ≡ tiles.old.items
        ++ row_of width (lane_tile_of (option_copied before.entry) (option_copied next.entry) lanes)) }
{
    for x in 0..width {
        let tile = lane_tile(before, next, lanes, x);
        tiles.push(tile)?;
    }
    Ok(())
}

// Appends the row of an operation.
fn put_operation(tiles: &mut Vec<Option<Form>>, width: u32, op: &Operation) -> Result<(), NoMemory>
    ensures { OnOk result (tiles.new.items ≡ tiles.old.items
        ++ row_of width (operation_tile_of op.now)) }
{
    for x in 0..width {
        let tile = operation_tile(op, x);
        tiles.push(tile)?;
    }
    Ok(())
}

// Appends the last row, where so many lanes are left.
fn put_outputs(tiles: &mut Vec<Option<Form>>, width: u32, left: u32) -> Result<(), NoMemory>
    ensures { OnOk result (tiles.new.items ≡ tiles.old.items ++ row_of width (output_tile_of left)) }
{
    for x in 0..width {
        let tile = output_tile(left, x);
        tiles.push(tile)?;
    }
    Ok(())
}

// The tile at column x between two operations.
fn lane_tile(
    before: Option<&Operation>,
    next: Option<&Operation>,
    lanes: u32,
    x: u32,
) -> Option<Form>
    ensures { result ≡ lane_tile_of (option_copied before.entry) (option_copied next.entry) lanes x }
{
    if x < lanes {
        Some(lane_form(before, next, x))
    } else {
        None
    }
}

// The form on a lane behind an operation, or at the start, and before the next.
fn lane_form(before: Option<&Operation>, next: Option<&Operation>, x: u32) -> Form
    ensures { result ≡ lane_form_of (option_copied before.entry) (option_copied next.entry) x }
{
    let left = leaves_left(next, x);
    match before {
        None => input_form(left),
        Some(op) => wire_form(gives_as_right(op, x), left),
    }
}

// The form of an input that leaves left or right.
fn input_form(left: bool) -> Form
    ensures { result ≡ input_of left }
{
    if left { form(INPUT_L) } else { form(INPUT_R) }
}

// The wire that enters left or right, and leaves so.
fn wire_form(enters_left: bool, leaves_left: bool) -> Form
    ensures { result ≡ wire_of enters_left leaves_left }
{
    match (enters_left, leaves_left) {
        (true, true) => form(WIRE_LL),
        (true, false) => form(WIRE_LR),
        (false, true) => form(WIRE_RL),
        (false, false) => form(WIRE_RR),
    }
}

// Whether lane x leaves left to the next operation.
fn leaves_left(next: Option<&Operation>, x: u32) -> bool
    ensures { result ≡ leaves_left_of (option_copied next.entry) x }
{
    match next {
        None => false,
        Some(op) => takes_as_right(op, x),
    }
}

// The tile at column x of an operation's row.
fn operation_tile(op: &Operation, x: u32) -> Option<Form>
    ensures { result ≡ operation_tile_of op.now x }
{
    if x == u32::from(op.lane) {
        Some(op.form)
    } else if takes_as_right(op, x) {
        None
    } else if x < u32::from(op.lanes) {
        Some(form(WIRE_LL))
    } else {
        None
    }
}

// The tile at column x of the last row.
fn output_tile(left: u32, x: u32) -> Option<Form>
    ensures { result ≡ output_tile_of left x }
{
    if x < left { Some(form(OUTPUT_L)) } else { None }
}
