//! What grids compute: each is sound, and for all values of the inputs its outputs are those of the module.

use crate::asserts::is_bool_in_row;
use crate::modules::{laid, net_of, network_of};
use bx_forms::FormSet;
use bx_layout::{eval_grid, is_sound, out_value};
use bx_logic::Net;
use bx_map::is_unused;
use bx_quick::Quick;
use std::alloc::Global;
use std::test::Fail;

// Every kind of gate, inputs that are read often and never, an input that is an output too, and signals that
// cross.
const MODULES: &[&str] = &[
    "module m(a, b, y); input a, b; output y; nand(y, a, b); endmodule",
    "module m(a, b, y); input a, b; output y; nor(y, b, a); endmodule",
    "module m(a, b, y); input a, b; output y; xnor(y, a, b); endmodule",
    "module m(a, b, s, c); input a, b; output s, c; xor(s, a, b); and(c, a, b); endmodule",
    "module m(a, b, y, z); input a, b; output y, z; assign y = a; not(z, a); endmodule",
    "module m(a, b, c, y, z); input a, b, c; output y, z; or(y, a, c); assign z = a; endmodule",
    "module m(a, b, c, s, t); input a, b, c; output s, t; xor(x, a, b); xor(s, x, c); \
     and(p, a, b); and(q, x, c); or(t, p, q); endmodule",
    "module m(a, b, c, d, y, z); input a, b, c, d; output y, z; nand(e, d, a); nor(f, c, b); \
     xnor(g, e, f); not(h, g); and(y, h, a); or(z, g, d); endmodule",
];

#[test]
fn grids_are_sound_and_compute_their_modules(rt: HostRuntime) -> Result<(), Fail> {
    for (row, &text) in MODULES.iter().enumerate() {
        let net = net_of(rt.alloc(), text)?;
        is_bool_in_row(&rt, row, is_laid_well(rt.alloc(), &net)?, true);
    }
    Ok(())
}

// Whether the net is laid out soundly, and has the net's outputs for all values of its inputs.
fn is_laid_well(alloc: Global, net: &Net) -> Result<bool, Fail> {
    let network = network_of(alloc, net)?;
    let Ok(quick) = laid(alloc, &network, FormSet::all(), 64)? else {
        return Ok(false);
    };
    let mut used = Vec::new(alloc);
    for input in 0..net.input_count() {
        if !is_unused(&network, input) {
            used.push(input)?;
        }
    }
    let mut well = is_sound(&quick.grid);
    for number in 0..1u32 << net.input_count().min(8) {
        let bits = bits_of(alloc, number, net.input_count())?;
        well = well && gives_the_same(alloc, net, &quick, &used, &bits)?;
    }
    Ok(well)
}

// The lowest bits of a number.
fn bits_of(alloc: Global, number: u32, count: u32) -> Result<Vec<bool>, Fail> {
    let mut bits = Vec::new(alloc);
    for k in 0..count.min(8) {
        bits.push(number >> k & 1 == 1)?;
    }
    Ok(bits)
}

// Whether for these bits of the inputs each output has the value in the grid that it has in the net.
fn gives_the_same(
    alloc: Global,
    net: &Net,
    quick: &Quick,
    used: &[u32],
    bits: &[bool],
) -> Result<bool, Fail> {
    if bits.len() != net.input_count() as usize {
        return Err("a module of the tests has few inputs".into());
    }
    let mut wanted = Vec::new(alloc);
    net.eval(alloc, bits, &mut wanted)?;
    let found = outputs_of(alloc, quick, used, bits)?;
    Ok(found.as_slice() == wanted.as_slice())
}

// The values of the grid's outputs.
fn outputs_of(
    alloc: Global,
    quick: &Quick,
    used: &[u32],
    bits: &[bool],
) -> Result<Vec<bool>, Fail> {
    let ratio = quick.grid.ratio();
    let given = given_to(alloc, quick, used, bits)?;
    if given.len() != ratio.w as usize {
        return Err("a value is given to each tile of the first row".into());
    }
    let mut borders = vec![in alloc; false; 2 * ratio.w as usize * ratio.h as usize]?;
    eval_grid(&quick.grid, &given, &mut borders);
    let mut values = Vec::new(alloc);
    for tile in quick.outputs.as_slice() {
        if *tile >= ratio.w * ratio.h {
            return Err("an output is on the grid".into());
        }
        values.push(out_value(&quick.grid, &borders, *tile))?;
    }
    Ok(values)
}

// The values that are given to the tiles of the first row.
fn given_to(alloc: Global, quick: &Quick, used: &[u32], bits: &[bool]) -> Result<Vec<bool>, Fail> {
    let mut given = vec![in alloc; false; quick.grid.ratio().w as usize]?;
    for (k, tile) in quick.inputs.as_slice().iter().enumerate() {
        let port = used.get(k).copied().unwrap_or(0);
        if let Some(value) = given.get_mut(*tile as usize) {
            *value = bits.get(port as usize).copied().unwrap_or(false);
        }
    }
    Ok(given)
}
