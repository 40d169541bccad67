//! True bits of the formulas of two small networks, and the layouts that they mean; and that bits of a layout
//! decode to it.

use crate::asserts::{are_numbers, is_bool, is_count, is_number};
use crate::laid::{
    ON_FOUR_TILES, ON_TWO_TILES, Sample, WITH_A_WIRE, WITH_AN_INVERSION, bits_of_sample,
    borders_of, each_bit_is_wanted, is_small,
};
use bx_cnf::all_true;
use bx_decode::decode;
use bx_encode::encode;
use bx_grid::Ratio;
use bx_layout::Layout;
use bx_network::MappedNet;
use bx_samples::{inversion, passing, without};
use std::alloc::Global;
use std::process::Abort;
use std::test::Fail;

#[test]
fn layouts_of_a_passing_edge_go_round(rt: HostRuntime) -> Result<(), Fail> {
    let net = passing(rt.alloc())?;
    for &sample in &[ON_TWO_TILES, ON_FOUR_TILES, WITH_A_WIRE] {
        goes_round(&rt, rt.alloc(), &net, sample)?;
    }
    Ok(())
}

#[test]
fn a_layout_of_an_inversion_goes_round(rt: HostRuntime) -> Result<(), Fail> {
    let net = inversion(rt.alloc())?;
    goes_round(&rt, rt.alloc(), &net, WITH_AN_INVERSION)
}

// Two tiles are empty; bits that call one of them or both taken are true too.
const TAKEN: &[&[usize]] = &[
    &[1, 7, 9, 10, 11, 14, 22],
    &[1, 7, 9, 11, 12, 14, 22],
    &[1, 7, 9, 10, 11, 12, 14, 22],
];

#[test]
fn an_empty_tile_may_be_called_taken(rt: HostRuntime) -> Result<(), Fail> {
    let net = passing(rt.alloc())?;
    for &trues in TAKEN {
        decodes(&rt, rt.alloc(), &net, ON_FOUR_TILES, trues)?;
    }
    Ok(())
}

// The bits of the layout are those that are wanted, and decode to it.
fn goes_round(
    rt: &impl Abort,
    alloc: Global,
    net: &MappedNet,
    sample: &Sample,
) -> Result<(), Fail> {
    each_bit_is_wanted(rt, alloc, net, sample)?;
    decodes(rt, alloc, net, sample, sample.trues)
}

// The bits of which these are true decode to the layout.
fn decodes(
    rt: &impl Abort,
    alloc: Global,
    net: &MappedNet,
    sample: &Sample,
    trues: &[usize],
) -> Result<(), Fail> {
    let layout = layout_of_bits(alloc, net, sample, trues)?;
    is_ratio(rt, layout.ratio, sample.ratio);
    is_laid(rt, alloc, &layout, sample)
}

fn is_laid(rt: &impl Abort, alloc: Global, layout: &Layout, sample: &Sample) -> Result<(), Fail> {
    are_numbers(rt, layout.places.as_slice(), sample.places);
    are_borders(rt, layout.borders.as_slice(), &borders_of(alloc, sample)?);
    Ok(())
}

fn is_ratio(rt: &impl Abort, found: Ratio, wanted: Ratio) {
    is_number(rt, found.w.into(), wanted.w.into());
    is_number(rt, found.h.into(), wanted.h.into());
}

fn are_borders(rt: &impl Abort, found: &[Option<u32>], wanted: &[Option<u32>]) {
    is_count(rt, found.len(), wanted.len());
    is_bool(rt, found == wanted, true);
}

// The layout of the bits of which these are true.
fn layout_of_bits(
    alloc: Global,
    net: &MappedNet,
    sample: &Sample,
    trues: &[usize],
) -> Result<Layout, Fail> {
    let mut bits = bits_of_sample(alloc, net, sample)?;
    for (k, bit) in bits.iter_mut().enumerate() {
        *bit = trues.contains(&(k + 1));
    }
    decode_true(alloc, net, sample.ratio, &bits)
}

// The layout of these bits, which have to be true.
fn decode_true(
    alloc: Global,
    net: &MappedNet,
    ratio: Ratio,
    bits: &[bool],
) -> Result<Layout, Fail> {
    if !is_small(net, ratio) {
        return Err("no formula".into());
    }
    let permit = without(&[]);
    let clauses = encode(alloc, net, &permit, ratio)?;
    if bits.len() != clauses.vars() as usize {
        return Err("not as many bits as variables".into());
    }
    if all_true(&clauses, bits) {
        Ok(decode(alloc, net, &permit, ratio, bits)?)
    } else {
        Err("the bits aren't true".into())
    }
}
