//! Laws about the definitions alone, each the clause of a function with an empty body. Nothing here
//! runs.
ghost use Rattle.std.specs.Prelude.{◌≡◌, ◌≢◌, ℕ, [], ◌*◌, ◌+◌, ◌^◌, ◌<◌, ◌≤◌, Bool, List, length, All, Contains};
ghost use Rattle.bx_cnf.specs.Literals.{Literal};
ghost use Rattle.bx_cnf.specs.Formulas.{Formula, IsFormula, AllTrue};
ghost use Rattle.bx_proof.specs.Steps.{Step, StepList};
ghost use Rattle.bx_proof.specs.Accepted.{EachFollows, IsAccepted};
ghost use Rattle.bx_watch.specs.Watching.{NoneActive};
ghost use Rattle.bx_search.specs.States.{Assigned, State, clauses_of, literals_of, current_level};
ghost use Rattle.bx_search.specs.Learning.{treated_from, of_level};
ghost use Rattle.bx_search.specs.Searching.{After, IsConflict, IsSearch, cost, enough, up_to};
ghost use Rattle.bx_search.specs.declared.outcome.Outcome.{Outcome};
ghost use Rattle.bx_search.specs.declared.outcome.Outcome.TheVariants.{Sat, Unsat, Undecided};

/// No literal of level 0 is kept in a learned clause.
pub fn nothing_of_level_0_is_kept()
    ensures { (clauses : List (List Literal)) (trail : List Assigned) (id : ℕ)
        → All (λ a. 0 < a.level) (treated_from clauses trail id).kept }
{}

/// In a state that the search reaches, at most one literal of the current level is kept.
pub fn one_of_the_current_level_is_kept()
    ensures { (formula : Formula) (budget events : ℕ) (s : State) (id : ℕ)
        → After formula budget events s
        → length (of_level (current_level s.trail)
        (treated_from (clauses_of formula s) s.trail id).kept) ≤ 1 }
{}

/// The search of a formula within a budget has one end, and learns one number of clauses on the way.
pub fn the_search_has_one_end()
    ensures { (formula : Formula) (budget m n : ℕ) (end other : Outcome)
        → IsSearch formula budget end m → IsSearch formula budget other n
        → (end ≡ other) × (m ≡ n) }
{}

/// Each clause that the search learns follows, by its hints, from those of the formula and those learned
/// before it; so does the empty clause at the end.
pub fn each_learned_clause_follows()
    ensures learned { (formula : Formula) (budget events : ℕ) (s : State)
        → After formula budget events s → EachFollows formula.clauses s.steps }
    ensures log { (formula : Formula) (budget count : ℕ) (log : StepList)
        → IsSearch formula budget (Unsat log) count → EachFollows formula.clauses log.steps }
{}

/// The log of a search that ends with the empty clause is accepted, so nothing solves its formula.
pub fn a_log_is_accepted()
    ensures { (formula : Formula) (budget count : ℕ) (log : StepList) → IsFormula formula
        → IsSearch formula budget (Unsat log) count → IsAccepted formula log }
{}

/// The bits with which a search ends, one for each variable, make all clauses of its formula true.
pub fn the_bits_of_a_search_solve()
    ensures each_has { (formula : Formula) (budget count : ℕ) (bits : List Bool) → IsFormula formula
        → IsSearch formula budget (Sat bits) count → length bits ≡ formula.vars }
    ensures all_true { (formula : Formula) (budget count : ℕ) (bits : List Bool) → IsFormula formula
        → IsSearch formula budget (Sat bits) count → AllTrue bits formula.clauses }
{}

/// The search of each formula within each budget ends: events that learn nothing make the trail longer,
/// which has one literal of each variable at most, and the others leave less of the budget.
pub fn a_search_ends()
    ensures { (formula : Formula) (budget : ℕ) → IsFormula formula
        → (end : Outcome) × (count : ℕ) × IsSearch formula budget end count }
{}

/// A search learns no more clauses that aren't empty than its budget is.
pub fn a_search_learns_within_its_budget()
    ensures { (formula : Formula) (budget count : ℕ) (end : Outcome)
        → IsSearch formula budget end count → count ≤ budget }
{}

/// In a state that the search reaches no clause is active up to a level below the current one.
pub fn no_clause_is_active_below_the_current_level()
    ensures { (formula : Formula) (budget events level : ℕ) (s : State)
        → After formula budget events s → level < current_level s.trail
        → NoneActive (literals_of (up_to level s.trail)) (clauses_of formula s) }
{}

/// A clause that is learned is none of the formula's and none of those learned before it, unless it is
/// empty.
pub fn a_learned_clause_is_new()
    ensures { (formula : Formula) (budget events : ℕ) (s : State) (id : ℕ) (step : Step)
        → After formula budget events s → IsConflict formula s id step → step.literals ≢ []
        → Contains (clauses_of formula s) step.literals → ⊥ }
{}

/// A search learns fewer clauses that aren't empty than there are clauses over its variables.
pub fn a_search_learns_few_clauses()
    ensures { (formula : Formula) (budget count : ℕ) (end : Outcome) → IsFormula formula
        → IsSearch formula budget end count → count < 3 ^ formula.vars }
{}

/// A step costs at most two for each variable, and one more.
pub fn a_step_costs_little()
    ensures { (formula : Formula) (budget events : ℕ) (s : State) (id : ℕ) (step : Step)
        → IsFormula formula → After formula budget events s → IsConflict formula s id step
        → cost step ≤ 2 * formula.vars + 1 }
{}

/// A budget that pays for each clause over the variables is never passed.
pub fn a_budget_is_enough()
    ensures { (formula : Formula) (budget count spent : ℕ) → IsFormula formula
        → enough formula.vars ≤ budget → IsSearch formula budget (Undecided spent) count → ⊥ }
{}
