//! Laws about the definitions alone, each the clause of a function with an empty body. Nothing here
//! runs.
ghost use Rattle.std.specs.Prelude.{◌≡◌, ◌+◌, ◌<◌, ℕ, List, [], Bool, Some, length, take, slice_get};
ghost use Rattle.bx_cnf.specs.Literals.{Literal};
ghost use Rattle.bx_cnf.specs.Formulas.{Formula, IsClauseTrue, AllTrue};
ghost use Rattle.bx_proof.specs.Steps.{Step, StepList};
ghost use Rattle.bx_proof.specs.Accepted.{Follows, IsAccepted};
ghost use Rattle.bx_check.specs.Passing.{PassUpTo};

/// Bits that make clauses true make the clause of each step true that follows from them.
pub fn a_step_that_follows_is_true_where_the_clauses_are()
    ensures { (clauses : List (List Literal)) (step : Step) (bits : List Bool)
        → Follows clauses step → AllTrue bits clauses → IsClauseTrue bits step.literals }
{}

/// No bits make all clauses of a formula true for which a log is accepted.
pub fn an_accepted_log_refutes_its_formula()
    ensures { (formula : Formula) (log : StepList) (bits : List Bool) → IsAccepted formula log
        → AllTrue bits formula.clauses → ⊥ }
{}

/// Where a step is empty, and it and all before it pass, no bits make all clauses of the formula true;
/// and the steps up to the first such are a log that is accepted.
pub fn an_empty_step_that_passes_refutes_the_formula()
    ensures refutes { (formula : Formula) (steps : List Step) (k : ℕ) (step : Step) (bits : List Bool)
        → PassUpTo formula steps (k + 1)
        → slice_get steps k ≡ Some step → step.literals ≡ [] → AllTrue bits formula.clauses → ⊥ }
    ensures accepted { (formula : Formula) (steps : List Step) (k : ℕ) (step : Step)
        → PassUpTo formula steps (k + 1)
        → slice_get steps k ≡ Some step → step.literals ≡ []
        → ((j : ℕ) (s : Step) → j < k → slice_get steps j ≡ Some s → s.literals ≡ [] → ⊥)
        → IsAccepted formula
        (record { first = length formula.clauses + 1; steps = take (k + 1) steps }) }
{}
