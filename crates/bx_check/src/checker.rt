//! The check of a log, step by step.
ghost use Rattle.std.specs.Prelude.{◌≡◌, ◌+◌, ◌-◌, ◌++◌, ◌<◌, ◌≤◌, ◌↔◌, ℕ, List, [], ◌∷◌, Bool, map, take, length, slice_get, Some, None, IfOk, OnOk, MatchOption, IsTrue, All};
ghost use Rattle.bx_cnf.specs.Literals.{negated};
ghost use Rattle.bx_cnf.specs.Formulas.{AscendAbove, AllTrue};
ghost use Rattle.bx_proof.specs.Steps.{Step};
ghost use Rattle.bx_proof.specs.Accepted.{LeadsToFalse, with_steps, Follows, IsAccepted};
ghost use Rattle.bx_check.specs.Chunks.{PassFrom, IsFailureFrom};
ghost use Rattle.bx_check.specs.Passing.{IsEnded, Passes, AllPass, IsFirstFailure};

use crate::assignment::Assignment;
use crate::left::{Left, left_of};
use crate::values::array_size;
use bx_cnf::{Clauses, Lit};
use bx_logic::NoMemory;
use bx_proof::Steps;
use std::alloc::Global;

/// Whether a log is accepted for a formula. Where it is, no bits make all its clauses true.
///
/// # Errors
///
/// `NoMemory`.
pub fn check(alloc: Global, clauses: &Clauses, steps: &Steps) -> Result<bool, NoMemory>
    ensures exact { IfOk result (λ yes. IsTrue yes ↔ IsAccepted clauses.now steps.now) }
    ensures sound { IfOk result (λ yes. IsTrue yes → (bits : List Bool)
        → AllTrue bits clauses.now.clauses → ⊥) }
{
    is_accepted(alloc, clauses, steps)
}

/// The first step of a log that fails, counted from 0, or none where all pass. A step passes where its
/// variables are the formula's and its hints lead from the negations of its literals to a false clause.
///
/// # Errors
///
/// `NoMemory`.
pub fn first_failure(
    alloc: Global,
    clauses: &Clauses,
    steps: &Steps,
) -> Result<Option<u32>, NoMemory>
    requires { steps.now.first ≡ length clauses.now.clauses + 1 }
    ensures fails { IfOk result (λ found. (k : ℕ)
        → (found ≡ Some k) ↔ IsFirstFailure clauses.now steps.now.steps k) }
    ensures pass { IfOk result (λ found. (found ≡ None) ↔ AllPass clauses.now steps.now.steps) }
{
    let size = array_size(clauses, steps);
    failure_between(alloc, clauses, steps, size, 0, steps.len())
}

/// The first step that fails of those from `from` to before `to`, or none where they pass. The values of so many
/// variables stand in an array.
pub(crate) fn failure_between(
    alloc: Global,
    clauses: &Clauses,
    steps: &Steps,
    size: u32,
    from: u32,
    to: u32,
) -> Result<Option<u32>, NoMemory>
    requires numbered { steps.now.first ≡ length clauses.now.clauses + 1 }
    requires within { to ≤ length steps.now.steps }
    ensures { IfOk result (λ found. MatchOption found
        (PassFrom clauses.now steps.now.steps from to)
        (λ k. (k < to) × IsFailureFrom clauses.now steps.now.steps from k)) }
{
    let mut assignment = Assignment::new(alloc, size)?;
    for k in from..to {
        if !passes(clauses, steps, k, &mut assignment)? {
            return Ok(Some(k));
        }
    }
    Ok(None)
}

// Whether a log is accepted for a formula.
fn is_accepted(alloc: Global, clauses: &Clauses, steps: &Steps) -> Result<bool, NoMemory>
    ensures { IfOk result (λ yes. IsTrue yes ↔ IsAccepted clauses.now steps.now) }
{
    if !is_shaped(clauses, steps) {
        return Ok(false);
    }
    let failure = first_failure(alloc, clauses, steps)?;
    Ok(failure.is_none())
}

/// Whether there are steps, their ids go on behind those of the formula's clauses, and the last of them, and no other,
/// has no literals.
pub(crate) fn is_shaped(clauses: &Clauses, steps: &Steps) -> bool
    ensures { IsTrue result ↔ (0 < length steps.now.steps)
        × (steps.now.first ≡ length clauses.now.clauses + 1) × IsEnded steps.now.steps }
{
    let numbered = u64::from(steps.first()) == u64::from(clauses.len()) + 1;
    !steps.is_empty() && numbered && is_ended(steps)
}

// Whether the last step, and no other, has no literals.
fn is_ended(steps: &Steps) -> bool
    ensures { IsTrue result ↔ IsEnded steps.now.steps }
{
    for k in 0..steps.len() {
        if steps.literals(k).is_empty() != (k + 1 == steps.len()) {
            return false;
        }
    }
    true
}

// Whether step k passes. No literal is taken before or after.
fn passes(
    clauses: &Clauses,
    steps: &Steps,
    k: u32,
    assignment: &mut Assignment,
) -> Result<bool, NoMemory>
    requires step { k < length steps.now.steps }
    requires numbered { steps.now.first ≡ length clauses.now.clauses + 1 }
    requires fresh { assignment.old ≡ [] }
    ensures exact { IfOk result (λ yes. (step : Step) → slice_get steps.now.steps k ≡ Some step
        → IsTrue yes ↔ Passes clauses.now (take k steps.now.steps) step) }
    ensures fresh { OnOk result (assignment.new ≡ assignment.old) }
{
    let literals = steps.literals(k);
    if !is_within(literals, clauses.vars()) {
        return Ok(false);
    }
    take_negations(literals, assignment)?;
    let leads = lead_to_false(clauses, steps, k, assignment)?;
    assignment.clear();
    Ok(leads)
}

// Whether literals are over variables 1 to `vars`.
fn is_within(literals: &[Lit], vars: u32) -> bool
    ensures { IsTrue result ↔ All (λ l. l.var ≤ vars) literals.now }
{
    literals.iter().all(|lit| lit.var() <= vars)
}

// Takes the negations of literals that ascend by variable.
fn take_negations(literals: &[Lit], assignment: &mut Assignment) -> Result<(), NoMemory>
    requires ascending { AscendAbove 0 literals.now }
    requires fresh { assignment.old ≡ [] }
    ensures { OnOk result (assignment.new ≡ map negated literals.now) }
{
    for lit in literals {
        assignment.take(!*lit)?;
    }
    Ok(())
}

// Whether the hints of step k lead from what is taken to a false clause.
fn lead_to_false(
    clauses: &Clauses,
    steps: &Steps,
    k: u32,
    assignment: &mut Assignment,
) -> Result<bool, NoMemory>
    requires step { k < length steps.now.steps }
    requires numbered { steps.now.first ≡ length clauses.now.clauses + 1 }
    ensures { IfOk result (λ yes. (step : Step) → slice_get steps.now.steps k ≡ Some step
        → IsTrue yes
        ↔ LeadsToFalse (with_steps clauses.now.clauses (take k steps.now.steps))
        assignment.old step.hints) }
{
    let hints = steps.hints(k);
    for (i, hint) in hints.iter().enumerate() {
        match left_of(assignment, clause_of(clauses, steps, *hint)) {
            Left::Nothing => return Ok(i + 1 == hints.len()),
            Left::One(lit) => assignment.take(lit)?,
            Left::More => return Ok(false),
        }
    }
    Ok(false)
}

// The clause of an id: one of the formula, or that of a step. Steps behind it change nothing of that.
fn clause_of<'a>(clauses: &'a Clauses, steps: &'a Steps, id: u32) -> &'a [Lit]
    requires numbered { steps.now.first ≡ length clauses.now.clauses + 1 }
    requires above { 0 < id }
    requires below { id ≤ length clauses.now.clauses + length steps.now.steps }
    ensures { (k : ℕ) → id ≤ length clauses.now.clauses + k → k ≤ length steps.now.steps
        → slice_get (with_steps clauses.now.clauses (take k steps.now.steps)) (id - 1)
        ≡ Some result.now }
{
    if id <= clauses.len() {
        clauses.clause(id)
    } else {
        steps.literals(id - steps.first())
    }
}
