//! The verdict, part by part.
ghost use Rattle.std.specs.Prelude.{◌≡◌, ◌≢◌, ◌≤◌, ℕ, length, IfOk, Ok, Err};
ghost use Rattle.bx_grid.specs.declared.ratio.Ratio.{Ratio};
ghost use Rattle.bx_map.specs.Maps.{mapping_of};
ghost use Rattle.bx_map.specs.declared.map.MapFault.{MapFault};
ghost use Rattle.bx_verify.specs.Answers.{IsAnswer, IsMapped, IsUnmapped, IsVerdict};
ghost use Rattle.bx_verify.specs.Failing.{OfFound, NoneFails, IsFirstToFail};
ghost use Rattle.bx_verify.specs.Meaning.{IsMinimal, Means, Shows};
ghost use Rattle.bx_verify.specs.declared.verdict.Part.{Part};

use crate::claims::first_off;
use crate::fault::VerifyFault;
use crate::places::wrong_design;
use crate::refuted::{first_unproved, permit_for};
use crate::verdict::{Part, Verdict};
use bx_cert::{Cert, CertLast};
use bx_encode::MOST_NODES;
use bx_layout::Permit;
use bx_library::Library;
use bx_logic::{Net, NoMemory};
use bx_map::map_net;
use bx_network::MappedNet;
use bx_siqad::Design;
use std::alloc::Global;
use std::thread::Threads;

/// Whether a design and its certificate are right for a net and a library: the found ratio, where no part of them
/// fails, and else the first part that does, with its number. One formula at a time is held.
///
/// # Errors
///
/// `Map` with why the net has no mapped network of at most [`MOST_NODES`] nodes, or `NoMemory`.
pub fn verify<T: Threads + Sync>(
    threads: &T,
    alloc: Global,
    net: &Net,
    library: &Library,
    design: &Design,
    cert: &Cert,
    workers: u32,
) -> Result<Verdict, VerifyFault>
    requires workers { (1 ≤ workers) × (workers ≤ 16) }
    // The found ratio is told exactly where no part fails.
    ensures minimal_only { (r : Ratio) → result ≡ Ok (Verdict.Minimal r) →
        OfFound cert.now.last (λ found spots. found ≡ r)
        × NoneFails (mapping_of net.now) library.now design.now cert.now }
    ensures minimal { (r : Ratio) → IsMapped net.now →
        OfFound cert.now.last (λ found spots. found ≡ r) →
        NoneFails (mapping_of net.now) library.now design.now cert.now →
        result ≢ Err VerifyFault.NoMemory → result ≡ Ok (Verdict.Minimal r) }
    // What is wrong is the first part that fails, with its number.
    ensures wrong_only { (part : Part) (k : ℕ) → result ≡ Ok (Verdict.Wrong part k) →
        IsFirstToFail (mapping_of net.now) library.now design.now cert.now part k }
    ensures wrong { (part : Part) (k : ℕ) → IsMapped net.now →
        IsFirstToFail (mapping_of net.now) library.now design.now cert.now part k →
        result ≢ Err VerifyFault.NoMemory → result ≡ Ok (Verdict.Wrong part k) }
    // A net without a network is told as such.
    ensures map_only { (fault : MapFault) → result ≡ Err (VerifyFault.Map fault) →
        IsUnmapped net.now fault }
    ensures map { (fault : MapFault) → IsUnmapped net.now fault →
        result ≢ Err VerifyFault.NoMemory → result ≡ Err (VerifyFault.Map fault) }
    // What minimal means, whoever made the design and the certificate.
    ensures means { (r : Ratio) → result ≡ Ok (Verdict.Minimal r) →
        IsMinimal net.now library.now design.now cert.now r }
{
    answer(threads, alloc, net, library, design, cert, workers)
}

// The answer, which is one.
fn answer<T: Threads + Sync>(
    threads: &T,
    alloc: Global,
    net: &Net,
    library: &Library,
    design: &Design,
    cert: &Cert,
    workers: u32,
) -> Result<Verdict, VerifyFault>
    requires workers { (1 ≤ workers) × (workers ≤ 16) }
    ensures is { IsAnswer net.now library.now design.now cert.now result }
    ensures means { IfOk result (Means net.now library.now design.now cert.now) }
{
    let network = map_net(alloc, net, MOST_NODES)?;
    Ok(judge(threads, alloc, &network, library, design, cert, workers)?)
}

// The first part that fails, or the found ratio where none does.
fn judge<T: Threads + Sync>(
    threads: &T,
    alloc: Global,
    net: &MappedNet,
    library: &Library,
    design: &Design,
    cert: &Cert,
    workers: u32,
) -> Result<Verdict, NoMemory>
    requires nodes { length net.now.nodes ≤ MOST_NODES }
    requires workers { (1 ≤ workers) × (workers ≤ 16) }
    ensures verdict { IfOk result (IsVerdict net.now library.now design.now cert.now) }
    ensures shown { IfOk result (Shows net.now library.now design.now cert.now) }
{
    // (known from here on: the net is a network)
    let _nodes = net.node_count();
    let sections = cert.sections().as_slice();
    let end = sections.len() as u64;
    let CertLast::Found(ratio, spots) = cert.last() else {
        return Ok(Verdict::Wrong(Part::Last, end));
    };
    if let Some(k) = first_off(cert.limits(), sections, *ratio) {
        return Ok(Verdict::Wrong(Part::Missing, k));
    }
    let permit = permit_for(library);
    if let Some(k) = first_unproved(threads, alloc, net, &permit, sections, workers)? {
        return Ok(Verdict::Wrong(Part::Proof, k));
    }
    let places = spots.as_slice();
    match wrong_design(alloc, net, library, design, *ratio, places)? {
        Some(part) => Ok(Verdict::Wrong(part, end)),
        None => Ok(Verdict::Minimal(*ratio)),
    }
}
