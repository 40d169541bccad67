//! The store of steps. Literals and hints stand apart, each in one vector and one of ends.
ghost use Rattle.std.specs.Prelude.{◌≡◌, ◌++◌, ◌+◌, ◌<◌, ◌≤◌, ◌^◌, ◌↔◌, [], ◌∷◌, length, slice_get, Some, OnOk, OnErr, IsTrue, All};
ghost use Rattle.std.specs.Option.{option_map};
ghost use Rattle.bx_cnf.specs.Formulas.{IsClause};
ghost use Rattle.bx_proof.specs.Steps.{IsStep};

use bx_cnf::{Flat, Lit, is_clause};
use bx_logic::NoMemory;
use std::alloc::Global;
use std::marker::Model;

/// Steps of which the first has an id, and each other one the id behind the one before. Contracts see
/// this first id and the list of the steps.
#[derive(Drop)]
pub struct Steps {
    first: u32,
    literals: Flat<Lit>,
    hints: Flat<u32>,
}

impl Model for Steps {
    ghost use Rattle.bx_proof.specs.Steps.{StepList, IsLog, steps_of};

    ghost Value = { StepList };

    ghost view = { λ log. record { first = log.first; steps = steps_of log.literals log.hints } };

    ghost invariant = { λ log. IsLog log.first log.literals log.hints };
}

impl Steps {
    ghost use Rattle.bx_proof.specs.Steps.{AreSteps};

    /// No steps; the first will have this id. Takes no memory.
    pub fn new(alloc: Global, first: u32) -> Self
        ensures { result ≡ record { first = first; steps = [] } }
    {
        Steps {
            first,
            literals: Flat::new(alloc),
            hints: Flat::new(alloc),
        }
    }

    /// Adds a step behind the others.
    ///
    /// # Errors
    ///
    /// `NoMemory`, and the steps are then as before.
    pub fn push(&mut self, literals: &[Lit], hints: &[u32]) -> Result<(), NoMemory>
        requires { IsStep (self.old.first + length self.old.steps)
            (record { literals = literals.now; hints = hints.now }) }
        ensures ok { OnOk result
            (self.new ≡ record self.old { steps = self.old.steps ++ record { literals = literals.now; hints = hints.now } ∷ [] }) }
        ensures err { OnErr result (self.new ≡ self.old) }
    {
        self.literals.push(literals)?;
        let room = self.hints.push(hints);
        if room.is_err() {
            self.literals.pop();
        }
        room
    }

    /// The id of the first step, whether there is one yet or not.
    pub fn first(&self) -> u32
        ensures { result ≡ self.now.first }
    {
        self.first
    }

    /// How many steps there are.
    pub fn len(&self) -> u32
        ensures count { result ≡ length self.now.steps }
        ensures formed { AreSteps self.now.first self.now.steps }
    {
        self.literals.len() as u32
    }

    /// Whether there is no step.
    pub fn is_empty(&self) -> bool
        ensures { IsTrue result ↔ (self.now.steps ≡ []) }
    {
        self.literals.len() == 0
    }

    /// The literals of step k, counted from 0.
    pub fn literals(&self, k: u32) -> &[Lit]
        requires { k < length self.now.steps }
        ensures value { option_map (λ step. step.literals)
            (slice_get self.now.steps k) ≡ Some result.now }
        ensures formed { IsClause 2147483647 result.now }
    {
        self.literals.list(k as usize)
    }

    /// The hints of step k, counted from 0.
    pub fn hints(&self, k: u32) -> &[u32]
        requires { k < length self.now.steps }
        ensures value { option_map (λ step. step.hints)
            (slice_get self.now.steps k) ≡ Some result.now }
        ensures some { 0 < length result.now }
        ensures before { All (λ h. (0 < h) × (h < self.now.first + k)) result.now }
    {
        self.hints.list(k as usize)
    }
}

/// Whether literals and hints make a step of this id: the literals ascend by variable, there is a hint,
/// each hint is from 1 to below the id, and the id is at most 4,294,967,295.
pub fn is_step(id: u64, literals: &[Lit], hints: &[u32]) -> bool
    ensures { IsTrue result ↔ IsStep id (record { literals = literals.now; hints = hints.now }) }
{
    if id > u64::from(u32::MAX) || hints.is_empty() || !is_clause(literals, 2_147_483_647) {
        return false;
    }
    hints.iter().all(|hint| *hint > 0 && u64::from(*hint) < id)
}
