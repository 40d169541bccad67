//! Trimming: of a log only the steps that its last one needs. A step is needed by those that name it in
//! their hints, so a walk from the last step to the first finds all of them.
ghost use Rattle.std.specs.Prelude.{◌≡◌, ◌+◌, ◌≤◌, length, IfOk, OnOk};

use crate::table::{at, put};
use bx_cnf::Lit;
use bx_logic::NoMemory;
use bx_proof::{Steps, is_step};
use std::alloc::Global;

/// The steps that the last one needs, it among them, numbered anew from the same first id. A search
/// learns much that its end doesn't need, so a certificate gets a fraction of the log's size. What the
/// steps are is not promised: who hands them out checks them.
///
/// # Errors
///
/// `NoMemory`.
pub fn trim(alloc: Global, steps: &Steps) -> Result<Steps, NoMemory>
    ensures first { IfOk result (λ kept. kept.first ≡ steps.now.first) }
    ensures fewer { IfOk result (λ kept. length kept.steps ≤ length steps.now.steps) }
{
    let needed = needed_steps(alloc, steps)?;
    let ids = new_ids(alloc, steps.first(), &needed)?;
    let mut kept = Steps::new(alloc, steps.first());
    let mut hints = Vec::new(alloc);
    for k in 0..steps.len() {
        if at(&needed, k, false) {
            put_renamed(&mut hints, steps.hints(k), steps.first(), &ids)?;
            put_step(&mut kept, steps.literals(k), &hints)?;
        }
    }
    Ok(kept)
}

// Adds a step, where it is one: the order of the steps is kept, so each is one still.
fn put_step(kept: &mut Steps, literals: &[Lit], hints: &[u32]) -> Result<(), NoMemory>
    ensures first { OnOk result (kept.new.first ≡ kept.old.first) }
    ensures one { OnOk result (length kept.new.steps ≤ length kept.old.steps + 1) }
{
    let id = u64::from(kept.first()) + u64::from(kept.len());
    if is_step(id, literals, hints) {
        kept.push(literals, hints)?;
    }
    Ok(())
}

// Of each step whether the last one needs it.
fn needed_steps(alloc: Global, steps: &Steps) -> Result<Vec<bool>, NoMemory> {
    let mut needed = vec![in alloc; false; steps.len() as usize]?;
    put(&mut needed, steps.len().saturating_sub(1), true);
    for k in (0..steps.len()).rev() {
        if at(&needed, k, false) {
            need_hints(&mut needed, steps.hints(k), steps.first());
        }
    }
    Ok(needed)
}

// The steps that hints name are needed.
fn need_hints(needed: &mut [bool], hints: &[u32], first: u32) {
    for hint in hints {
        if *hint >= first {
            put(needed, *hint - first, true);
        }
    }
}

// The id of each step among those that are needed.
fn new_ids(alloc: Global, first: u32, needed: &[bool]) -> Result<Vec<u32>, NoMemory> {
    let mut ids = Vec::with_capacity(alloc, needed.len())?;
    let mut id = first;
    for is_needed in needed {
        ids.push(id)?;
        if *is_needed {
            id = id.wrapping_add(1);
        }
    }
    Ok(ids)
}

// Puts hints under their new ids in place of others.
fn put_renamed(
    renamed: &mut Vec<u32>,
    hints: &[u32],
    first: u32,
    ids: &[u32],
) -> Result<(), NoMemory> {
    renamed.clear();
    for hint in hints {
        let id = if *hint < first {
            *hint
        } else {
            at(ids, *hint - first, 0)
        };
        renamed.push(id)?;
    }
    Ok(())
}
