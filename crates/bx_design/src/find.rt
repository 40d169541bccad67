//! From a network to its solution: workers race its ratios, what refuted them becomes the certificate, and the bits of
//! the one that was found are read as a layout.
ghost use Rattle.std.specs.Prelude.{◌≤◌, length, IfOk};
ghost use Rattle.bx_decode.specs.Meaning.{AreTrue, Means};
ghost use Rattle.bx_design.specs.Making.{IsReadable};
ghost use Rattle.bx_design.specs.Meaning.{IsMinimal};
ghost use Rattle.bx_design.specs.Solutions.{IsSolution, IsTold};
ghost use Rattle.bx_grid.specs.Orders.{AreLimits};
ghost use Rattle.bx_grid.specs.Tiles.{tile_count, IsGrid};
ghost use Rattle.bx_layout.specs.Permits.{test_of};
ghost use Rattle.bx_layout.specs.TileForms.{IsFormGridOf};

use crate::certificate::{make_sections, make_spots};
use crate::solution::{LaidOut, Solution};
use bx_cert::{Cert, CertLast, MOST_CERT_BUDGET};
use bx_cnf::Bits;
use bx_decode::decode;
use bx_desk::Gate;
use bx_encode::{MOST_AREA, MOST_NODES};
use bx_grid::{Limits, Ratio, Ratios};
use bx_layout::{Permit, form_grid};
use bx_logic::NoMemory;
use bx_network::MappedNet;
use bx_proof::Refutation;
use bx_verdict::Last;
use bx_workers::{Problem, Raced, race_all};
use std::alloc::Global;
use std::thread::Threads;

/// The solution of a network within these limits: so many workers race the ratios, each within the budget, for the
/// first that isn't refuted. It doesn't depend on their number. The gate is told which ratio is tried. Each worker
/// holds one formula and its solver at a time.
///
/// # Errors
///
/// `NoMemory` if memory is refused.
pub fn find_design<T: Threads + Sync, G: Gate + Sync>(
    threads: &T,
    alloc: Global,
    net: &MappedNet,
    permit: &Permit,
    limits: Limits,
    budget: u64,
    workers: u32,
    gate: &G,
) -> Result<Solution, NoMemory>
    requires nodes { length net.now.nodes ≤ MOST_NODES }
    requires limits { AreLimits limits }
    requires budget { budget ≤ MOST_CERT_BUDGET }
    requires workers { (1 ≤ workers) × (workers ≤ 16) }
    ensures exact { IfOk result (λ s.
        IsSolution net.now (test_of permit.now) limits budget s.cert s.found) }
    ensures minimal { IfOk result (λ s.
        IsMinimal net.now (test_of permit.now) limits budget s.cert s.found) }
{
    // (known from here on: the net is a network)
    let _nodes = net.node_count();
    let ratios = Ratios::new(limits);
    let problem = Problem {
        net,
        permit,
        ratios: &ratios,
        budget,
    };
    let Raced {
        refutations,
        last,
        ..
    } = race_all(threads, alloc, &problem, workers, gate)?;
    let refutations = refutations.into_vec();
    let told = tell(alloc, net, permit, &ratios, &refutations, last)?;
    let sections = make_sections(alloc, &ratios, refutations)?;
    let cert = Cert::new(limits, budget, sections, told.last);
    Ok(Solution {
        cert,
        found: told.found,
    })
}

// How the search ended, as a certificate has it, and what was found.
#[derive(Drop)]
struct Told {
    last: CertLast,
    found: Option<LaidOut>,
}

// What is known of the ratio behind those that were refuted, with its layout where it was found.
fn tell(
    alloc: Global,
    net: &MappedNet,
    permit: &Permit,
    ratios: &Ratios,
    refuted: &[Refutation],
    last: Last,
) -> Result<Told, NoMemory>
    requires nodes { length net.now.nodes ≤ MOST_NODES }
    requires readable { IsReadable net.now (test_of permit.now) ratios.now
        (length refuted.now) last }
    ensures { IfOk result (λ told.
        IsTold net.now ratios.now (length refuted.now) last told.last told.found) }
{
    let k = refuted.len() as u64;
    match last {
        Last::Found(bits) => {
            let ratio = ratios.at(k);
            let laid = lay_out(alloc, net, permit, ratio, bits)?;
            let spots = make_spots(alloc, &laid.layout)?;
            Ok(Told {
                last: CertLast::Found(ratio, spots),
                found: Some(laid),
            })
        }
        Last::Undecided(spent) => Ok(Told {
            last: CertLast::Undecided(ratios.at(k), spent),
            found: None,
        }),
        Last::NoneWithin => Ok(Told {
            last: CertLast::NoneWithin,
            found: None,
        }),
    }
}

// The layout that these bits mean, with its forms.
fn lay_out(
    alloc: Global,
    net: &MappedNet,
    permit: &Permit,
    ratio: Ratio,
    bits: Bits,
) -> Result<LaidOut, NoMemory>
    requires nodes { length net.now.nodes ≤ MOST_NODES }
    requires grid { IsGrid ratio }
    requires area { tile_count ratio ≤ MOST_AREA }
    requires true_bits { AreTrue net.now (test_of permit.now) ratio bits }
    ensures means { IfOk result (λ laid. Means net.now ratio bits laid.layout) }
    ensures forms { IfOk result (λ laid. IsFormGridOf net.now laid.layout laid.grid) }
{
    let layout = decode(alloc, net, permit, ratio, bits.as_slice())?;
    let grid = form_grid(alloc, net, &layout)?;
    Ok(LaidOut { layout, grid })
}
