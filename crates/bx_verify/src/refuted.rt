//! Whether each section's proof refutes its ratio.
ghost use Rattle.std.specs.Prelude.{◌≡◌, ◌↔◌, ◌≤◌, ℕ, length, IfOk, IsTrue};
ghost use Rattle.bx_bounds.specs.Numbers.{IsLeast};
ghost use Rattle.bx_encode.specs.Formula.{formula};
ghost use Rattle.bx_grid.specs.Tiles.{tile_count, IsGrid};
ghost use Rattle.bx_grid.specs.declared.ratio.Ratio.{Ratio};
ghost use Rattle.bx_layout.specs.Permits.{test_of};
ghost use Rattle.bx_library.specs.Tiles.{IsLibrary};
ghost use Rattle.bx_proof.specs.Accepted.{IsAccepted};
ghost use Rattle.bx_refutes.specs.Refutations.{IsRefutedBy};
ghost use Rattle.bx_verify.specs.Failing.{IsUnproved};
ghost use Rattle.bx_dots.specs.Permits.{permit_of};
ghost use Rattle.bx_verify.specs.Sections.{AreSmall, AreProved};

use bx_bounds::check_count;
use bx_cert::Section;
use bx_check::check_chunks;
use bx_encode::{MOST_AREA, MOST_NODES, encode};
use bx_grid::Ratio;
use bx_layout::Permit;
use bx_library::Library;
use bx_logic::NoMemory;
use bx_network::MappedNet;
use bx_proof::{Refutation, Steps};
use std::alloc::Global;
use std::thread::Threads;

/// The permit of the forms that a library offers.
pub(crate) fn permit_for(library: &Library) -> Permit
    ensures allows { test_of result ≡ permit_of library.now }
    ensures kept { IsLibrary library.now }
{
    let _width = library.width();
    Permit::same(library.offers())
}

/// The index of the first section whose proof doesn't refute its ratio, or none where each does.
pub(crate) fn first_unproved<T: Threads + Sync>(
    threads: &T,
    alloc: Global,
    net: &MappedNet,
    permit: &Permit,
    sections: &[Section],
    workers: u32,
) -> Result<Option<u64>, NoMemory>
    requires nodes { length net.now.nodes ≤ MOST_NODES }
    requires small { AreSmall sections.now }
    requires workers { (1 ≤ workers) × (workers ≤ 16) }
    ensures first { IfOk result
        (IsLeast (IsUnproved net.now (test_of permit.now) sections.now)) }
    ensures proved { IfOk result (AreProved net.now (test_of permit.now) sections.now) }
{
    for (k, section) in sections.iter().enumerate() {
        if !is_proved(threads, alloc, net, permit, section, workers)? {
            return Ok(Some(k as u64));
        }
    }
    Ok(None)
}

// Whether the proof of a section refutes its ratio.
fn is_proved<T: Threads + Sync>(
    threads: &T,
    alloc: Global,
    net: &MappedNet,
    permit: &Permit,
    section: &Section,
    workers: u32,
) -> Result<bool, NoMemory>
    requires nodes { length net.now.nodes ≤ MOST_NODES }
    requires grid { IsGrid section.now.ratio }
    requires area { tile_count section.now.ratio ≤ MOST_AREA }
    requires workers { (1 ≤ workers) × (workers ≤ 16) }
    ensures { IfOk result (λ yes. IsTrue yes ↔
        IsRefutedBy net.now (test_of permit.now) section.now.ratio section.now.proof) }
{
    match &section.proof {
        Refutation::Count(proof) => Ok(check_count(net, section.ratio, *proof)),
        Refutation::Clauses(steps) => {
            are_accepted(threads, alloc, net, permit, section.ratio, steps, workers)
        }
    }
}

// Whether steps are accepted for the formula of a ratio, which is given up before it returns.
fn are_accepted<T: Threads + Sync>(
    threads: &T,
    alloc: Global,
    net: &MappedNet,
    permit: &Permit,
    ratio: Ratio,
    steps: &Steps,
    workers: u32,
) -> Result<bool, NoMemory>
    requires nodes { length net.now.nodes ≤ MOST_NODES }
    requires grid { IsGrid ratio }
    requires area { tile_count ratio ≤ MOST_AREA }
    requires workers { (1 ≤ workers) × (workers ≤ 16) }
    ensures { IfOk result (λ yes. IsTrue yes ↔
        IsAccepted (formula net.now (test_of permit.now) ratio) steps.now) }
{
    let clauses = encode(alloc, net, permit, ratio)?;
    check_chunks(threads, alloc, &clauses, steps, workers)
}
