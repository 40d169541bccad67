//! Small modules whose grids were worked out by hand.

use crate::asserts::is_text_in_row;
use crate::modules::{laid, net_of, network_of};
use bx_forms::FormSet;
use bx_layout::FormGrid;
use bx_quick::Quick;
use std::alloc::Global;
use std::test::Fail;

// A module, and its grid row by row with the tiles of the inputs and of the outputs by port order: a gate, a
// module of wires alone, a `not`, an input that is never read, two outputs of one signal, a gate whose first
// operand stands on the right, and a gate whose operands have another lane between them.
const GRIDS: &[(&str, &str)] = &[
    (
        "module m(a, b, y); input a, b; output y; and(y, a, b); endmodule",
        "input_r input_l / and_l - / wire_rr - / output_l - / 0 1 / 6",
    ),
    (
        "module m(a, b, y, z); input a, b; output y, z; assign y = b; assign z = a; endmodule",
        "input_r input_r / output_l output_l / 0 1 / 3 2",
    ),
    (
        "module m(a, y); input a; output y; not(y, a); endmodule",
        "input_r / not_ll / wire_rr / output_l / 0 / 3",
    ),
    (
        "module m(a, b, y); input a, b; output y; assign y = b; endmodule",
        "input_r / output_l / 0 / 1",
    ),
    (
        "module m(a, y, z); input a; output y, z; assign y = a; assign z = a; endmodule",
        "input_r - / fan_l - / wire_rr wire_lr / output_l output_l / 0 / 6 7",
    ),
    (
        "module m(a, b, y, z); input a, b; output y, z; not(y, a); assign z = b; endmodule",
        "input_r input_r / not_ll wire_ll / wire_rr wire_rr / output_l output_l / 0 1 / 6 7",
    ),
    (
        "module m(a, b, c, y, z); input a, b, c; output y, z; or(y, a, c); assign z = b; endmodule",
        "input_r input_l input_r / cross - wire_ll / wire_rr wire_lr wire_rl / wire_ll or_l - / \
         wire_rr wire_rr - / output_l output_l - / 0 1 2 / 16 15",
    ),
];

#[test]
fn small_grids_are_as_they_were_worked_out(rt: HostRuntime) -> Result<(), Fail> {
    for (row, &(text, wanted)) in GRIDS.iter().enumerate() {
        let found = grid_text(rt.alloc(), text)?;
        is_text_in_row(&rt, row, found.as_str(), wanted);
    }
    Ok(())
}

fn grid_text(alloc: Global, module: &str) -> Result<String, Fail> {
    let network = network_of(alloc, &net_of(alloc, module)?)?;
    match laid(alloc, &network, FormSet::all(), 64)? {
        Ok(quick) => quick_text(alloc, &quick),
        Err(fault) => Ok(fault),
    }
}

fn quick_text(alloc: Global, quick: &Quick) -> Result<String, Fail> {
    let mut text = String::new(alloc);
    for row in 0..quick.grid.ratio().h {
        put_row(&mut text, &quick.grid, row)?;
    }
    put_numbers(alloc, &mut text, quick.inputs.as_slice())?;
    text.push_str("/ ")?;
    put_numbers(alloc, &mut text, quick.outputs.as_slice())?;
    Ok(trimmed(alloc, text.as_str())?)
}

fn put_row(text: &mut String, grid: &FormGrid, row: u32) -> Result<(), Fail> {
    if row >= grid.ratio().h {
        return Err("there is such a row".into());
    }
    for tile in grid.row(row) {
        match tile {
            Some(form) => text.push_str(form.name())?,
            None => text.push_str("-")?,
        }
        text.push_str(" ")?;
    }
    text.push_str("/ ")?;
    Ok(())
}

fn put_numbers(alloc: Global, text: &mut String, numbers: &[u32]) -> Result<(), Fail> {
    for number in numbers {
        let shown = format!(in alloc; "{number} ")?;
        text.push_str(shown.as_str())?;
    }
    Ok(())
}

// The text without the blank at its end.
fn trimmed(alloc: Global, text: &str) -> Result<String, Fail> {
    Ok(String::from_str(alloc, text.trim_end())?)
}
