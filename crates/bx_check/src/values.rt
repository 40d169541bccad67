//! Values of variables. Those of the first variables stand in an array, and those of others in a tree, for as long as
//! they have one. So values take memory by how many variables a file can name, and not by how many it declares or how
//! high their numbers are.
ghost use Rattle.std.specs.Prelude.{◌≡◌, ◌<◌, ◌≤◌, ℕ, Some, None, IfOk, OnOk, OnErr, map};
ghost use Rattle.bx_proof.specs.Accepted.{with_steps};
ghost use Rattle.bx_check.specs.Valued.{value_of, Sets, literal_count};

use bx_cnf::Clauses;
use bx_logic::NoMemory;
use bx_proof::Steps;
use std::alloc::Global;
use std::collections::BTreeMap;

/// The value of each variable that has one.
#[derive(Drop)]
pub(crate) struct Values {
    // that of variable v stands at v - 1
    first: Vec<Option<bool>>,
    // those of variables behind them
    others: BTreeMap<u32, bool>,
}

impl Values {
    /// No variable has a value. Those of so many variables will stand in the array.
    pub(crate) fn new(alloc: Global, count: u32) -> Result<Self, NoMemory>
        ensures { IfOk result (λ values. (var : ℕ) → value_of values var ≡ None) }
    {
        Ok(Values {
            first: vec![in alloc; None; count as usize]?,
            others: BTreeMap::new(alloc),
        })
    }

    /// The value of a variable, if it has one.
    pub(crate) fn get(&self, var: u32) -> Option<bool>
        requires { 0 < var }
        ensures { result ≡ value_of self.now var }
    {
        if self.first.len() < var as usize {
            self.others.get(&var).copied()
        } else {
            self.first[var as usize - 1]
        }
    }

    /// Gives a variable a value. Where memory is refused each has its own as before.
    pub(crate) fn set(&mut self, var: u32, value: bool) -> Result<(), NoMemory>
        requires { 0 < var }
        ensures ok { OnOk result (Sets self.old self.new var (Some value)) }
        ensures err { OnErr result ((v : ℕ) → value_of self.new v ≡ value_of self.old v) }
    {
        if self.first.len() < var as usize {
            self.others.insert(var, value)?;
        } else {
            self.first[var as usize - 1] = Some(value);
        }
        Ok(())
    }

    /// Takes a variable's value away.
    pub(crate) fn unset(&mut self, var: u32)
        requires { 0 < var }
        ensures { Sets self.old self.new var None }
    {
        if self.first.len() < var as usize {
            self.others.remove(&var);
        } else {
            self.first[var as usize - 1] = None;
        }
    }
}

/// For how many variables a check has an array: for all of the formula, but for no more than there are literals.
pub(crate) fn array_size(clauses: &Clauses, steps: &Steps) -> u32
    ensures vars { result ≤ clauses.now.vars }
    ensures literals { result
        ≤ literal_count (with_steps clauses.now.clauses steps.now.steps) }
{
    let most = u64::from(clauses.vars());
    let literals = literals_of_clauses(clauses, most);
    if literals >= most {
        return clauses.vars();
    }
    literals
        .saturating_add(literals_of_steps(steps, most))
        .min(most) as u32
}

// How many literals the clauses have. It stops counting at so many, which a formula without gaps in its numbers has
// soon.
fn literals_of_clauses(clauses: &Clauses, most: u64) -> u64
    ensures { result ≤ literal_count clauses.now.clauses }
{
    let mut count: u64 = 0;
    for k in 0..clauses.len() {
        if count >= most {
            return count;
        }
        count = count.saturating_add(clauses.clause(k + 1).len() as u64);
    }
    count
}

// Likewise of steps.
fn literals_of_steps(steps: &Steps, most: u64) -> u64
    ensures { result ≤ literal_count (map (λ step. step.literals) steps.now.steps) }
{
    let mut count: u64 = 0;
    for k in 0..steps.len() {
        if count >= most {
            return count;
        }
        count = count.saturating_add(steps.literals(k).len() as u64);
    }
    count
}
