//! Designs and certificates that were found by a search: the verifier says of each that its ratio is minimal.
ghost use Rattle.std.specs.Prelude.{IsTrue};
ghost use Rattle.bx_dots.specs.GridDots.{AreOffered};

use crate::made::{Place, design, net};
use crate::sample::sample_without;
use crate::told::says;
use bx_design::{LaidOut, Solution, find_design};
use bx_desk::OpenGate;
use bx_dots::dots_of;
use bx_grid::Limits;
use bx_layout::{FormGrid, Permit};
use bx_library::Library;
use bx_logic::Net;
use bx_map::map_net;
use bx_siqad::Design;
use std::alloc::Global;
use std::process::Abort;
use std::test::Fail;
use std::thread::Threads;

// The forms that the library lacks, a module, an area, and what is said.
const FOUND: &[(&[u8], &str, u32, &str)] = &[
    (
        &[],
        "module m(a, y); input a; output y; assign y = a; endmodule",
        144,
        "minimal 1 2",
    ),
    (
        &[2],
        "module m(a, y); input a; output y; assign y = a; endmodule",
        144,
        "minimal 1 3",
    ),
    (
        &[],
        "module m(a, y); input a; output y; not (y, a); endmodule",
        100,
        "minimal 1 3",
    ),
    // one input isn't used
    (
        &[],
        "module m(a, b, c, y); input a, b, c; output y; and (y, a, c); endmodule",
        100,
        "minimal 2 3",
    ),
    // the half adder, of which one ratio is refuted by clauses
    (
        &[],
        "module ha(a, b, s, c); input a, b; output s, c; xor (s, a, b); and (c, a, b); endmodule",
        15,
        "minimal 3 5",
    ),
];

#[test]
fn what_is_found_is_minimal(rt: HostRuntime) -> Result<(), Fail> {
    for &(left_out, text, area, wanted) in FOUND {
        let library = sample_without(rt.alloc(), left_out)?;
        let net = net(rt.alloc(), text)?;
        is_minimal(&rt, rt.alloc(), &net, &library, area, wanted)?;
    }
    Ok(())
}

// Asserts what is said of what is found for a net within an area.
fn is_minimal<R: Threads + Abort + Sync>(
    rt: &R,
    alloc: Global,
    net: &Net,
    library: &Library,
    area: u32,
    wanted: &str,
) -> Result<(), Fail> {
    let Solution { cert, found } = solution(rt, alloc, net, library, area)?;
    let Some(LaidOut { grid, .. }) = found else {
        return Err("a layout is found".into());
    };
    let design = drawn(alloc, library, &grid)?;
    says(rt, alloc, net, library, &design, &cert, wanted)
}

// What is found for a net within an area.
fn solution<R: Threads + Sync>(
    rt: &R,
    alloc: Global,
    net: &Net,
    library: &Library,
    area: u32,
) -> Result<Solution, Fail> {
    if area < 1 || area > 144 {
        return Err("an area is from 1 to 144".into());
    }
    let limits = Limits {
        area,
        width: 144,
        height: 144,
    };
    let permit = Permit::same(library.offers());
    let network = map_net(alloc, net, 96).map_err(|_| "the net has a network")?;
    if network.node_count() > 96 {
        return Err("the network isn't too large".into());
    }
    Ok(find_design(
        rt, alloc, &network, &permit, limits, 1_000_000, 1, &OpenGate,
    )?)
}

// The design of a grid's dots.
fn drawn(alloc: Global, library: &Library, grid: &FormGrid) -> Result<Design, Fail> {
    if !are_offered(library, grid) {
        return Err("a form isn't offered".into());
    }
    let mut places: Vec<Place> = Vec::new(alloc);
    for dot in &dots_of(alloc, library, grid)? {
        places.push((dot.n, dot.m, dot.l))?;
    }
    let ratio = grid.ratio();
    design(alloc, ratio.w, ratio.h, &places)
}

// Whether every form of the grid is offered.
fn are_offered(library: &Library, grid: &FormGrid) -> bool
    ensures { IsTrue result → AreOffered library.now grid.now }
{
    let ratio = grid.ratio();
    for tile in 0..ratio.w * ratio.h {
        if let Some(form) = grid.tile(tile) {
            if !library.offers().has(form) {
                return false;
            }
        }
    }
    true
}
