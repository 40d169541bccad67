//! The formulas of small networks, and the bits of their layouts: what clauses are there by their numbers, how
//! many there are, and that each bit counts.

use crate::asserts::{is_bool, is_bool_in_row, is_number_in_row, is_text};
use crate::laid::{
    ON_FOUR_TILES, ON_TWO_TILES, Sample, WITH_A_CROSSING, WITH_A_GATE, WITH_A_WIRE,
    WITH_AN_INVERSION, bits_of_sample, each_bit_is_wanted, formula_of, satisfies,
};
use crate::large::ladder;
use bx_cnf::{Clauses, Lit};
use bx_grid::Ratio;
use bx_network::MappedNet;
use bx_samples::{conjunction, half_adder, inversion, passing};
use std::alloc::Global;
use std::process::Abort;
use std::test::Fail;

// ---- Clauses by their numbers

// An input that leads to an output, on one column and two rows, where no output reads from the left: the
// clauses family by family, each ended by 0.
const FAMILIES: &[&str] = &[
    "1 2 0 3 4 0 ",
    "-1 -2 0 -3 -4 0 ",
    "-1 -3 0 -2 -4 0 ",
    "-1 5 0 -3 5 0 -2 6 0 -4 6 0 ",
    "-2 0 -3 0 ",
    "-11 0 -13 0 -14 0 ",
    "",
    "7 -11 0 -7 11 0 8 -12 0 -8 12 0 9 -13 0 -9 13 0 10 -14 0 -10 14 0 ",
    "1 -11 0 1 -12 0 2 12 -13 0 2 12 -14 0 ",
    "4 -12 13 14 0 ",
    "-1 11 12 0 -3 0 -2 13 14 0 -4 12 0 ",
    "-11 -12 0 -3 -11 0 -3 -12 0 -13 -14 0 -2 -12 0 -4 -13 0 -4 -14 0 ",
    "1 -5 -11 0 1 -5 -12 0 2 -6 -13 0 2 -6 -14 0 4 -6 -12 0 ",
    "-4 -8 0 ",
];

#[test]
fn clauses_stand_family_by_family(rt: HostRuntime) -> Result<(), Fail> {
    let found = passing_text(rt.alloc())?;
    let wanted = joined(rt.alloc(), FAMILIES)?;
    is_text(&rt, found.as_str(), wanted.as_str());
    Ok(())
}

fn joined(alloc: Global, parts: &[&str]) -> Result<String, Fail> {
    let mut text = String::new(alloc);
    for &part in parts {
        text.push_str(part)?;
    }
    Ok(text)
}

fn passing_text(alloc: Global) -> Result<String, Fail> {
    let net = passing(alloc)?;
    let clauses = formula_of(alloc, &net, Ratio { w: 1, h: 2 }, &[2])?;
    text_of(alloc, &clauses)
}

// The clauses in a row, each ended by 0.
fn text_of(alloc: Global, clauses: &Clauses) -> Result<String, Fail> {
    let mut text = String::new(alloc);
    for k in 0..clauses.len() {
        push_clause(alloc, clauses.clause(k + 1), &mut text)?;
    }
    Ok(text)
}

fn push_clause(alloc: Global, literals: &[Lit], text: &mut String) -> Result<(), Fail> {
    for lit in literals {
        let word = format!(in alloc; "{} ", lit.number())?;
        text.push_str(word.as_str())?;
    }
    text.push_str("0 ")?;
    Ok(())
}

// ---- How many variables and clauses there are

// On so many columns and rows, where these forms are left out: so many variables, and so many clauses.
type Count = (u32, u32, &'static [u8], u32, u32);

const OF_PASSING: &[Count] = &[
    (1, 2, &[], 14, 44),
    (1, 2, &[2], 14, 45),
    (1, 2, &[0, 1], 14, 48),
    (2, 3, &[4], 42, 165),
    (2, 3, &[26], 42, 164),
    (3, 4, &[27], 84, 410),
];

#[test]
fn the_formulas_of_a_passing_edge_are_counted(rt: HostRuntime) -> Result<(), Fail> {
    are_counted(&rt, rt.alloc(), &passing(rt.alloc())?, OF_PASSING)
}

const OF_INVERSION: &[Count] = &[
    (1, 3, &[], 30, 134),
    (1, 3, &[8, 9], 30, 136),
    (2, 3, &[26, 27], 60, 312),
    (3, 4, &[], 120, 729),
];

#[test]
fn the_formulas_of_an_inversion_are_counted(rt: HostRuntime) -> Result<(), Fail> {
    are_counted(&rt, rt.alloc(), &inversion(rt.alloc())?, OF_INVERSION)
}

const OF_CONJUNCTION: &[Count] = &[(2, 3, &[], 78, 464)];

#[test]
fn the_formula_of_a_conjunction_is_counted(rt: HostRuntime) -> Result<(), Fail> {
    are_counted(&rt, rt.alloc(), &conjunction(rt.alloc())?, OF_CONJUNCTION)
}

// On three columns and four rows no half adder fits.
const OF_HALF_ADDER: &[Count] = &[(3, 4, &[], 324, 3272), (3, 5, &[], 405, 4286)];

#[test]
fn the_formulas_of_a_half_adder_are_counted(rt: HostRuntime) -> Result<(), Fail> {
    are_counted(&rt, rt.alloc(), &half_adder(rt.alloc())?, OF_HALF_ADDER)
}

// As many nodes and tiles as a formula may have. Each clause is counted, so none is left out for want of a number.
const OF_A_LADDER: &[Count] = &[(12, 12, &[], 54_864, 4_867_971)];

#[test]
fn the_largest_formula_is_counted(rt: HostRuntime) -> Result<(), Fail> {
    are_counted(&rt, rt.alloc(), &ladder(rt.alloc())?, OF_A_LADDER)
}

fn are_counted(
    rt: &impl Abort,
    alloc: Global,
    net: &MappedNet,
    rows: &[Count],
) -> Result<(), Fail> {
    for (row, &(w, h, left_out, vars, count)) in rows.iter().enumerate() {
        let found = counts_of(alloc, net, Ratio { w, h }, left_out)?;
        is_number_in_row(rt, row, found.0.into(), vars.into());
        is_number_in_row(rt, row, found.1.into(), count.into());
    }
    Ok(())
}

// How many variables and clauses there are, where these forms are left out.
fn counts_of(
    alloc: Global,
    net: &MappedNet,
    ratio: Ratio,
    left_out: &[u8],
) -> Result<(u32, u32), Fail> {
    let clauses = formula_of(alloc, net, ratio, left_out)?;
    Ok((clauses.vars(), clauses.len()))
}

// ---- The bits of layouts

#[test]
fn an_edge_passes_from_tile_to_tile(rt: HostRuntime) -> Result<(), Fail> {
    let net = passing(rt.alloc())?;
    for &sample in &[ON_TWO_TILES, ON_FOUR_TILES, WITH_A_WIRE] {
        each_bit_counts(&rt, rt.alloc(), &net, sample)?;
    }
    Ok(())
}

#[test]
fn an_inversion_stands_between(rt: HostRuntime) -> Result<(), Fail> {
    let net = inversion(rt.alloc())?;
    each_bit_counts(&rt, rt.alloc(), &net, WITH_AN_INVERSION)
}

#[test]
fn two_edges_meet_at_a_gate(rt: HostRuntime) -> Result<(), Fail> {
    let net = conjunction(rt.alloc())?;
    each_bit_counts(&rt, rt.alloc(), &net, WITH_A_GATE)
}

#[test]
fn two_edges_cross_beside_the_gates(rt: HostRuntime) -> Result<(), Fail> {
    let net = half_adder(rt.alloc())?;
    each_bit_counts(&rt, rt.alloc(), &net, WITH_A_CROSSING)
}

// Left-out forms, and whether the edge on two tiles, by which the output reads from the left, remains.
const READERS: &[(&[u8], bool)] = &[(&[2], false), (&[3], true)];

#[test]
fn an_output_reads_from_the_left(rt: HostRuntime) -> Result<(), Fail> {
    let net = passing(rt.alloc())?;
    for &(left_out, wanted) in READERS {
        let found = is_solved(rt.alloc(), &net, ON_TWO_TILES, left_out)?;
        is_bool(&rt, found, wanted);
    }
    Ok(())
}

// The bits of a layout are those that are wanted and make all clauses true, and no longer where one is turned.
fn each_bit_counts(
    rt: &impl Abort,
    alloc: Global,
    net: &MappedNet,
    sample: &Sample,
) -> Result<(), Fail> {
    is_bool(rt, is_solved(alloc, net, sample, &[])?, true);
    each_bit_is_wanted(rt, alloc, net, sample)?;
    only_free_bits_may_be_turned(rt, alloc, net, sample)
}

// Whether the bits make all clauses true, where these forms are left out.
fn is_solved(
    alloc: Global,
    net: &MappedNet,
    sample: &Sample,
    left_out: &[u8],
) -> Result<bool, Fail> {
    let bits = bits_of_sample(alloc, net, sample)?;
    let clauses = formula_of(alloc, net, sample.ratio, left_out)?;
    Ok(satisfies(&clauses, &bits))
}

fn only_free_bits_may_be_turned(
    rt: &impl Abort,
    alloc: Global,
    net: &MappedNet,
    sample: &Sample,
) -> Result<(), Fail> {
    let turned = turned_bits(alloc, net, sample)?;
    for (k, &is_free) in turned.iter().enumerate() {
        is_bool_in_row(rt, k, is_free, sample.free.contains(&(k + 1)));
    }
    Ok(())
}

// Of each bit whether all clauses are true where it is turned.
fn turned_bits(alloc: Global, net: &MappedNet, sample: &Sample) -> Result<Vec<bool>, Fail> {
    let bits = bits_of_sample(alloc, net, sample)?;
    let clauses = formula_of(alloc, net, sample.ratio, &[])?;
    each_turned(alloc, &clauses, &bits)
}

fn each_turned(alloc: Global, clauses: &Clauses, bits: &[bool]) -> Result<Vec<bool>, Fail> {
    let mut turned = Vec::from_slice(alloc, bits)?;
    let mut all = Vec::new(alloc);
    for k in 0..bits.len() {
        turn(&mut turned, k);
        all.push(satisfies(clauses, &turned))?;
        turn(&mut turned, k);
    }
    Ok(all)
}

// Turns the bit at this place.
fn turn(bits: &mut [bool], k: usize) {
    if let Some(bit) = bits.get_mut(k) {
        *bit = !*bit;
    }
}
