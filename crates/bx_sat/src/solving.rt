//! Whether a formula has a solution: by the search of the rule within a budget, or by the fast one over so many
//! conflicts. A solution that is given makes all clauses true, and a log is accepted, whichever it was.
ghost use Rattle.std.specs.Prelude.{◌≡◌, ◌<◌, List, Bool, IfOk};
ghost use Rattle.bx_cnf.specs.Formulas.{AllTrue};
ghost use Rattle.bx_proof.specs.Steps.{StepList, AreSteps};
ghost use Rattle.bx_sat.specs.Solving.{usable_budget, IsEnd, IsRight};

use bx_cnf::{Bits, Clauses};
use bx_fast::{FastOutcome, solve_fast};
use bx_logic::NoMemory;
use bx_proof::Steps;
use bx_pulse::Steady;
use bx_search::{Outcome, solve};
use std::alloc::Global;
use std::marker::Brand;
use std::sync::ledger::{Blank, Ledger};

// The greatest id of a clause.
const MAX_ID: u32 = 4_294_967_295;

/// What is known of a formula.
#[derive(Drop)]
pub enum Answer {
    /// These bits, one for each variable, make all clauses true.
    Satisfiable(Bits),
    /// These steps are accepted, so no bits make all clauses true.
    Unsatisfiable(Steps),
    /// The budget, or the conflicts, ended before either was found.
    Unknown,
}

/// Searches for bits that make all clauses true, within a budget of literals and hints of learned steps.
/// Of a budget that clauses and steps could pass the greatest id with, only as much is used as they can't.
///
/// # Errors
///
/// `NoMemory`.
pub fn decide(alloc: Global, clauses: &Clauses, budget: u64) -> Result<Answer, NoMemory>
    // It is the end of the search, within what is used of the budget.
    ensures ended { IfOk result (IsEnd clauses.now (usable_budget clauses.now budget)) }
    // Bits that it gives make all clauses true, and a log that it gives is accepted, and can be written.
    ensures found { IfOk result (IsRight clauses.now) }
    ensures refuted { IfOk result (λ answer. (log : StepList) → answer ≡ Answer.Unsatisfiable log
        → (bits : List Bool) → AllTrue bits clauses.now.clauses → ⊥) }
{
    decide_steadily::<Brand>(alloc, clauses, budget, Blank::new(1))
}

// The same, where a new ledger counts how often the search's pulse is asked.
fn decide_steadily<L: Ledger>(
    alloc: Global,
    clauses: &Clauses,
    budget: u64,
    blank: Blank,
) -> Result<Answer, NoMemory>
    requires name { blank.name ≡ L.name }
    requires parts { blank.parts ≡ L.parts }
    requires some { 0 < blank.parts }
    ensures ended { IfOk result (IsEnd clauses.now (usable_budget clauses.now budget)) }
    ensures found { IfOk result (IsRight clauses.now) }
    ensures refuted { IfOk result (λ answer. (log : StepList) → answer ≡ Answer.Unsatisfiable log
        → (bits : List Bool) → AllTrue bits clauses.now.clauses → ⊥) }
{
    let most = u64::from(MAX_ID - clauses.len());
    let mut pulse = Steady::<L>::new(blank);
    match solve(alloc, clauses, budget.min(most), &mut pulse)? {
        Outcome::Sat(bits) => Ok(Answer::Satisfiable(bits)),
        Outcome::Unsat(steps) => Ok(refuted(steps)),
        Outcome::Undecided(_) => Ok(Answer::Unknown),
        // A steady pulse never says no.
        Outcome::Stopped => unreachable!(),
    }
}

/// Searches for bits that make all clauses true, over so many conflicts, by the fast search: how it comes to its
/// answer is its own, and only what it answers is promised.
///
/// # Errors
///
/// `NoMemory`.
pub fn decide_fast(alloc: Global, clauses: &Clauses, conflicts: u64) -> Result<Answer, NoMemory>
    // Bits that it gives make all clauses true, and a log that it gives is accepted, and can be written.
    ensures found { IfOk result (IsRight clauses.now) }
    ensures refuted { IfOk result (λ answer. (log : StepList) → answer ≡ Answer.Unsatisfiable log
        → (bits : List Bool) → AllTrue bits clauses.now.clauses → ⊥) }
{
    decide_fast_steadily::<Brand>(alloc, clauses, conflicts, Blank::new(1))
}

// The same, where a new ledger counts how often the search's pulse is asked.
fn decide_fast_steadily<L: Ledger>(
    alloc: Global,
    clauses: &Clauses,
    conflicts: u64,
    blank: Blank,
) -> Result<Answer, NoMemory>
    requires name { blank.name ≡ L.name }
    requires parts { blank.parts ≡ L.parts }
    requires some { 0 < blank.parts }
    ensures found { IfOk result (IsRight clauses.now) }
    ensures refuted { IfOk result (λ answer. (log : StepList) → answer ≡ Answer.Unsatisfiable log
        → (bits : List Bool) → AllTrue bits clauses.now.clauses → ⊥) }
{
    let mut pulse = Steady::<L>::new(blank);
    match solve_fast(alloc, clauses, conflicts, &mut pulse)? {
        FastOutcome::Sat(bits) => Ok(Answer::Satisfiable(bits)),
        FastOutcome::Unsat(steps) => Ok(refuted(steps)),
        FastOutcome::Unknown => Ok(Answer::Unknown),
        // A steady pulse never says no.
        FastOutcome::Stopped => unreachable!(),
    }
}

// Steps of which each has a form that can be written: a store of steps holds that of all that it has, which
// its length tells.
fn refuted(steps: Steps) -> Answer
    ensures answer { result ≡ Answer.Unsatisfiable steps }
    ensures formed { AreSteps steps.first steps.steps }
{
    let _count = steps.len();
    Answer::Unsatisfiable(steps)
}
