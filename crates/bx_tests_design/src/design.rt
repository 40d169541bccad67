//! The certificates of small networks, under permits that lack some forms, and within limits and budgets at their
//! edges; and the forms of one. The texts come from another program or were worked out by hand.

use crate::asserts::{are_bytes, holds, is_number, is_text};
use bx_cert::{Cert, CertLast, MOST_CERT_BUDGET, write_cert};
use bx_design::{LaidOut, Solution, find_design};
use bx_desk::{Failed, MemDesk, OpenGate, Piece};
use bx_encode::MOST_NODES;
use bx_grid::{Limits, MOST_LIMIT};
use bx_layout::FormGrid;
use bx_logic::NoMemory;
use bx_network::MappedNet;
use bx_samples::{conjunction, inversion, passing, without};
use std::alloc::Global;
use std::test::Fail;
use std::thread::Threads;

// ---- A wire

// Without these forms, within this area and this budget.
type Case = (&'static [u8], u32, u64, &'static str);

const CASES: &[Case] = &[
    (
        &[],
        100,
        100_000,
        "bestagon cert 1\nlimits 100 144 144 100000\ncount 1 1 late 0\nfound 1 2\nplace 0 0\nplace 0 1\nend\n",
    ),
    (
        &[],
        144,
        0,
        "bestagon cert 1\nlimits 144 144 144 0\ncount 1 1 late 0\nfound 1 2\nplace 0 0\nplace 0 1\nend\n",
    ),
    (
        &[2],
        100,
        100_000,
        "bestagon cert 1\nlimits 100 144 144 100000\ncount 1 1 late 0\nclauses 1 2 1\n46 0 11 1 5 2 13 29 18 45 0\ncount 2 1 late 0\nfound 1 3\nplace 0 0\nplace 0 2\nend\n",
    ),
    (
        &[0, 1],
        2,
        6,
        "bestagon cert 1\nlimits 2 144 144 6\ncount 1 1 late 0\nclauses 1 2 1\n49 0 11 1 13 29 18 46 0\ncount 2 1 late 0\nnone\nend\n",
    ),
    (
        &[0, 1],
        2,
        5,
        "bestagon cert 1\nlimits 2 144 144 5\ncount 1 1 late 0\nundecided 1 2 0\nend\n",
    ),
    (
        &[],
        1,
        100_000,
        "bestagon cert 1\nlimits 1 144 144 100000\ncount 1 1 late 0\nnone\nend\n",
    ),
    (
        &[],
        1,
        0,
        "bestagon cert 1\nlimits 1 144 144 0\ncount 1 1 late 0\nnone\nend\n",
    ),
];

#[test]
fn a_wire_has_this_certificate(rt: HostRuntime) -> Result<(), Fail> {
    let net = passing(rt.alloc())?;
    for &(left_out, area, budget, wanted) in CASES {
        let cert = cert_text(&rt, rt.alloc(), &net, left_out, area, budget)?;
        are_bytes(&rt, &cert, wanted.as_bytes(), wanted);
    }
    Ok(())
}

// The text of the certificate of a solution.
fn cert_text<R: Threads + Sync>(
    rt: &R,
    alloc: Global,
    net: &MappedNet,
    left_out: &[u8],
    area: u32,
    budget: u64,
) -> Result<Vec<u8>, Fail> {
    let solution = solution_of(rt, alloc, net, left_out, area, budget)?;
    text_of(alloc, &solution.cert)
}

// The solution without these forms, within this area and this budget.
fn solution_of<R: Threads + Sync>(
    rt: &R,
    alloc: Global,
    net: &MappedNet,
    left_out: &[u8],
    area: u32,
    budget: u64,
) -> Result<Solution, Fail> {
    if area < 1 || area > MOST_LIMIT || budget > MOST_CERT_BUDGET || net.node_count() > MOST_NODES {
        return Err("too much".into());
    }
    let limits = Limits {
        area,
        width: MOST_LIMIT,
        height: MOST_LIMIT,
    };
    Ok(find_design(
        rt,
        alloc,
        net,
        &without(left_out),
        limits,
        budget,
        4,
        &OpenGate,
    )?)
}

// What is written for a certificate.
fn text_of(alloc: Global, cert: &Cert) -> Result<Vec<u8>, Fail> {
    let mut desk = roomy(alloc)?;
    say(cert, &mut desk)?;
    Ok(Vec::from_slice(alloc, desk.said())?)
}

// A desk with room for what is said.
fn roomy(alloc: Global) -> Result<MemDesk, NoMemory> {
    let mut desk = MemDesk::new(alloc);
    desk.say_room(1000)?;
    Ok(desk)
}

// Says a certificate.
fn say(cert: &Cert, desk: &mut MemDesk) -> Result<(), Failed> {
    let mut piece = Piece::to_say();
    write_cert(cert, &mut piece, desk)?;
    piece.end(desk)
}

// ---- Gates

// Areas, and an inverter's certificate within each.
const INVERTERS: &[(u32, &str)] = &[
    (
        2,
        "bestagon cert 1\nlimits 2 144 144 9\ncount 1 1 late 0\ncount 1 2 late 0\ncount 2 1 late 0\nnone\nend\n",
    ),
    (
        3,
        "bestagon cert 1\nlimits 3 144 144 9\ncount 1 1 late 0\ncount 1 2 late 0\ncount 2 1 late 0\nfound 1 3\nplace 0 0\nplace 0 1\nplace 0 2\nend\n",
    ),
];

#[test]
fn an_inverter_takes_three_rows(rt: HostRuntime) -> Result<(), Fail> {
    let net = inversion(rt.alloc())?;
    for &(area, wanted) in INVERTERS {
        let cert = cert_text(&rt, rt.alloc(), &net, &[], area, 9)?;
        are_bytes(&rt, &cert, wanted.as_bytes(), wanted);
    }
    Ok(())
}

// Up to the places, of which the gate's is given.
const AND_FRONT: &str =
    "bestagon cert 1\nlimits 100 144 144 100000\ncount 1 1 late 0\ncount 1 2 late 0\ncount 2 1 late 0\ncount 1 3 crowd 0 0\ncount 3 1 late 0\ncount 1 4 crowd 0 0\ncount 2 2 late 0\ncount 4 1 late 0\ncount 1 5 crowd 0 0\ncount 5 1 late 0\ncount 1 6 crowd 0 0\nfound 2 3\nplace ";

#[test]
fn a_gate_of_two_operands_takes_six_tiles(rt: HostRuntime) -> Result<(), Fail> {
    let net = conjunction(rt.alloc())?;
    let solution = solution_of(&rt, rt.alloc(), &net, &[], 100, 100_000)?;
    let text = text_of(rt.alloc(), &solution.cert)?;
    holds(&rt, text.starts_with(AND_FRONT.as_bytes()), "front");
    holds(&rt, has_gate_at(solution.cert.last(), 0, 1), "gate");
    Ok(())
}

// Whether a layout was found in which the third node stands in this column and this row.
fn has_gate_at(last: &CertLast, x: u32, y: u32) -> bool {
    match last {
        CertLast::Found(_, spots) => match spots.as_slice().get(2) {
            Some(spot) => spot.x == x && spot.y == y,
            None => false,
        },
        _ => false,
    }
}

// ---- Forms

#[test]
fn what_was_found_has_its_places(rt: HostRuntime) -> Result<(), Fail> {
    let net = passing(rt.alloc())?;
    let layout = laid_out(&rt, rt.alloc(), &net)?.layout;
    holds(&rt, layout.ratio.w == 1 && layout.ratio.h == 2, "ratio");
    holds(&rt, layout.places.as_slice() == [0, 1].as_slice(), "places");
    Ok(())
}

#[test]
fn what_was_found_has_its_forms(rt: HostRuntime) -> Result<(), Fail> {
    let net = passing(rt.alloc())?;
    let grid = laid_out(&rt, rt.alloc(), &net)?.grid;
    is_number(&rt, u64::from(grid.ratio().w), 1, "columns");
    let names = names_of(rt.alloc(), &grid)?;
    is_text(&rt, names.as_str(), "input_r output_l ", "names");
    Ok(())
}

// The layout of a network, with its forms.
fn laid_out<R: Threads + Sync>(rt: &R, alloc: Global, net: &MappedNet) -> Result<LaidOut, Fail> {
    let Solution { cert: _cert, found } = solution_of(rt, alloc, net, &[], 100, 100_000)?;
    match found {
        Some(laid) => Ok(laid),
        None => Err("found".into()),
    }
}

// The names of the forms of a grid, each before a space.
fn names_of(alloc: Global, grid: &FormGrid) -> Result<String, NoMemory> {
    let mut names = String::new(alloc);
    for y in 0..grid.ratio().h {
        for tile in grid.row(y) {
            names.push_str(tile.map_or("empty", |form| form.name()))?;
            names.push_str(" ")?;
        }
    }
    Ok(names)
}
