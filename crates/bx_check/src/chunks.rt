//! The check of a log in chunks, each in a thread of its own. Its answer is that of the check in one piece, for every
//! number of chunks.
ghost use Rattle.std.specs.Prelude.{◌≡◌, ◌+◌, ◌<◌, ◌≤◌, ◌↔◌, ℕ, List, Bool, true, false, Ok, length, slice_index, IfOk, IsTrue, All, Contains};
ghost use Rattle.bx_cnf.specs.Formulas.{AllTrue};
ghost use Rattle.bx_proof.specs.Accepted.{IsAccepted, with_steps};
ghost use Rattle.bx_check.specs.Chunks.{AreBorders, PassFrom};
ghost use Rattle.bx_check.specs.Passing.{AllPass};

use crate::checker::{failure_between, is_shaped};
use crate::values::array_size;
use bx_cnf::Clauses;
use bx_logic::NoMemory;
use bx_proof::Steps;
use std::alloc::Global;
use std::thread;
use std::thread::Threads;

/// Whether a log is accepted for a formula, as `check` says it. The steps are checked in as many chunks as there are
/// workers, each in a thread of its own where one can be made. A chunk keeps two bytes for each variable, and
/// for no more variables than there are literals.
///
/// # Errors
///
/// `NoMemory`.
pub fn check_chunks<T: Threads + Sync>(
    threads: &T,
    alloc: Global,
    clauses: &Clauses,
    steps: &Steps,
    workers: u32,
) -> Result<bool, NoMemory>
    requires workers { (1 ≤ workers) × (workers ≤ 16) }
    ensures exact { IfOk result (λ yes. IsTrue yes ↔ IsAccepted clauses.now steps.now) }
    ensures sound { IfOk result (λ yes. IsTrue yes → (bits : List Bool)
        → AllTrue bits clauses.now.clauses → ⊥) }
{
    is_accepted(threads, alloc, clauses, steps, workers)
}

// Whether a log is accepted for a formula.
fn is_accepted<T: Threads + Sync>(
    threads: &T,
    alloc: Global,
    clauses: &Clauses,
    steps: &Steps,
    workers: u32,
) -> Result<bool, NoMemory>
    requires workers { (1 ≤ workers) × (workers ≤ 16) }
    ensures { IfOk result (λ yes. IsTrue yes ↔ IsAccepted clauses.now steps.now) }
{
    if !is_shaped(clauses, steps) {
        return Ok(false);
    }
    do_all_pass(threads, alloc, clauses, steps, workers)
}

// Whether all steps pass.
fn do_all_pass<T: Threads + Sync>(
    threads: &T,
    alloc: Global,
    clauses: &Clauses,
    steps: &Steps,
    workers: u32,
) -> Result<bool, NoMemory>
    requires numbered { steps.now.first ≡ length clauses.now.clauses + 1 }
    requires workers { (1 ≤ workers) × (workers ≤ 16) }
    ensures { IfOk result (λ yes. IsTrue yes ↔ AllPass clauses.now steps.now.steps) }
{
    let size = array_size(clauses, steps);
    let borders = borders_of(alloc, steps, workers)?;
    let row = borders.as_slice();
    let answers = thread::map_indices(
        threads,
        alloc,
        workers as usize,
        &|i| { passes_chunk(alloc, clauses, steps, size, row, i) },
    )?;
    are_all_yes(&answers)
}

// Whether the steps of chunk i pass.
fn passes_chunk(
    alloc: Global,
    clauses: &Clauses,
    steps: &Steps,
    size: u32,
    borders: &[u32],
    i: usize,
) -> Result<bool, NoMemory>
    requires numbered { steps.now.first ≡ length clauses.now.clauses + 1 }
    requires chunk { i + 1 < length borders.now }
    requires within { slice_index borders.now (i + 1) ≤ length steps.now.steps }
    ensures { IfOk result (λ yes. IsTrue yes ↔ PassFrom clauses.now steps.now.steps
        (slice_index borders.now i) (slice_index borders.now (i + 1))) }
{
    let failure = failure_between(alloc, clauses, steps, size, borders[i], borders[i + 1])?;
    Ok(failure.is_none())
}

// Whether each chunk answers yes.
fn are_all_yes(answers: &[Result<bool, NoMemory>]) -> Result<bool, NoMemory>
    ensures all { IfOk result (λ yes. IsTrue yes → All (λ answer. answer ≡ Ok true) answers.now) }
    ensures one_no { IfOk result (λ yes. yes ≡ false → Contains answers.now (Ok false)) }
{
    for answer in answers {
        if !(*answer)? {
            return Ok(false);
        }
    }
    Ok(true)
}

// Where each chunk of a log begins, and behind them where the last one ends. Steps cost what their hints do, so each
// chunk but the last has its share of the hints.
fn borders_of(alloc: Global, steps: &Steps, workers: u32) -> Result<Vec<u32>, NoMemory>
    requires { (1 ≤ workers) × (workers ≤ 16) }
    ensures { IfOk result (λ borders. AreBorders workers (length steps.now.steps) borders.items) }
{
    let share = hint_count(steps).div_ceil(u64::from(workers));
    let mut borders = vec![in alloc; 0]?;
    let mut end = 0;
    for _ in 1..workers {
        end = end_of_chunk(steps, end, share);
        borders.push(end)?;
    }
    borders.push(steps.len())?;
    Ok(borders)
}

// How many hints the steps have.
fn hint_count(steps: &Steps) -> u64 {
    let mut count: u64 = 0;
    for k in 0..steps.len() {
        count = count.saturating_add(steps.hints(k).len() as u64);
    }
    count
}

// The first step behind a chunk that begins with this one and has so many hints, or the end of the log.
fn end_of_chunk(steps: &Steps, from: u32, share: u64) -> u32
    requires { from ≤ length steps.now.steps }
    ensures { (from ≤ result) × (result ≤ length steps.now.steps) }
{
    let mut count: u64 = 0;
    for k in from..steps.len() {
        if count >= share {
            return k;
        }
        count = count.saturating_add(steps.hints(k).len() as u64);
    }
    steps.len()
}
