//! Laws about the definitions alone, each the clause of a function with an empty body. Nothing here
//! runs.
ghost use Rattle.std.specs.Prelude.{◌≡◌, ◌++◌, ◌+◌, ◌-◌, List, [], Bool, true, Ok, length, take, replicate};
ghost use Rattle.bx_cnf.specs.Formulas.{Formula, AllTrue};
ghost use Rattle.bx_dimacs.specs.FormulaTexts.{FormulaText};
ghost use Rattle.bx_dimacs.specs.Keeping.{Keeps};
ghost use Rattle.bx_dimacs.specs.Proofs.{AreStepsKept};
ghost use Rattle.bx_dimacs.specs.ProofTexts.{ProofText, proof_of};
ghost use Rattle.bx_proof.specs.Accepted.{AreShaped};
ghost use Rattle.bx_proof.specs.Steps.{StepList, AreSteps};
ghost use Rattle.bx_proof.specs.Texts.{log_text};

/// Bits that make all clauses of a formula true make every clause of its text true, of which those of the
/// declared variables are enough. And values of these that make every clause of the text true make all
/// clauses of the formula true, with true for its other variables.
pub fn a_formula_means_what_its_text_says()
    ensures text { (text : FormulaText) (formula : Formula) (bits : List Bool)
        → Keeps text formula → AllTrue bits formula.clauses
        → AllTrue (take text.vars bits) text.clauses }
    ensures formula { (text : FormulaText) (formula : Formula) (values : List Bool)
        → Keeps text formula → length values ≡ text.vars → AllTrue values text.clauses
        → AllTrue (values ++ replicate (formula.vars - text.vars) true) formula.clauses }
{}

/// The text of a log, whose steps begin behind the clauses of a formula, are over its variables and end with
/// the first empty one, says the steps of the log.
pub fn a_log_is_what_its_text_says()
    ensures { (formula : Formula) (log : StepList) → log.first ≡ length formula.clauses + 1
        → AreSteps log.first log.steps → AreShaped formula.vars log.steps
        → (said : ProofText) × (proof_of formula (log_text log) ≡ Ok said)
        × AreStepsKept (length formula.clauses) [] said.steps log.steps }
{}
