//! Laws about the definitions alone, each the clause of a function with an empty body. Nothing here
//! runs.
ghost use Rattle.std.specs.Prelude.{◌≡◌, ◌<◌, ◌≤◌, ◌^◌, List, Bool, All, length, take};
ghost use Rattle.bx_cnf.specs.Formulas.{Formula, AllTrue};
ghost use Rattle.bx_proof.specs.Accepted.{IsAccepted};
ghost use Rattle.bx_proof.specs.Steps.{StepList};
ghost use Rattle.bx_dimacs.specs.declared.formula.DimacsFormula.{DimacsFormula};
ghost use Rattle.bx_dimacs.specs.declared.proof.LratProof.{LratProof};
ghost use Rattle.bx_dimacs.specs.FormulaTexts.{FormulaText};
ghost use Rattle.bx_dimacs.specs.Keeping.{Keeps, IsFormulaOf};
ghost use Rattle.bx_dimacs.specs.Proofs.{IsProofOf};
ghost use Rattle.bx_dimacs.specs.Words.{lines_of};
ghost use Rattle.bx_sat.specs.declared.checking.Finding.{Finding};
ghost use Rattle.bx_sat.specs.declared.checking.Finding.TheVariants.{Verified};
ghost use Rattle.bx_sat.specs.declared.solving.Answer.TheVariants.{Unsatisfiable};
ghost use Rattle.bx_sat.specs.Checking.{IsFinding};
ghost use Rattle.bx_sat.specs.Solving.{IsRight};
ghost use Rattle.bx_proof.specs.Texts.{log_text};
ghost use Rattle.bx_sat.specs.Sayings.{solution_text};
ghost use Rattle.bx_sat.specs.Texts.{IsRefutation, IsSolution};
ghost use Rattle.bx_says.specs.Texts.{Text};

/// Where steps are accepted for the formula of a text, no values of the variables that it declares make
/// all its clauses true.
pub fn an_accepted_proof_refutes_the_text()
    ensures { (text : FormulaText) (formula : Formula) (log : StepList) (values : List Bool)
        → Keeps text formula
        → IsAccepted formula log → length values ≡ text.vars → AllTrue values text.clauses → ⊥ }
{}

/// What is found of a proof is that it is verified exactly where its steps are accepted, and then the bytes
/// of the two texts are those of a refutation.
pub fn a_verified_proof_refutes_the_text()
    ensures verified { (formula proof : Text) (read : DimacsFormula) (steps : LratProof)
        → IsFormulaOf formula read
        → IsProofOf read.clauses proof steps → IsFinding read.clauses steps Verified
        → IsRefutation formula proof }
    ensures exact { (read : Formula) (steps : LratProof) (finding : Finding)
        → IsFinding read steps finding
        → IsAccepted read steps.steps → finding ≡ Verified }
{}

/// A text that another refutes has no solution.
pub fn a_refuted_text_has_no_solution()
    ensures { (formula proof : Text) (values : List Bool) → IsRefutation formula proof
        → IsSolution formula values → ⊥ }
{}

/// The values of a solution of the formula of a text, as far as the text declares variables, make all its
/// clauses true.
pub fn a_solution_makes_the_text_true()
    ensures { (text : FormulaText) (formula : Formula) (bits : List Bool) → Keeps text formula
        → AllTrue bits formula.clauses
        → AllTrue (take text.vars bits) text.clauses }
{}

/// No line of a solution has more than 78 bytes.
pub fn a_line_of_values_is_short()
    ensures { (values : List Bool) → length values < 2 ^ 31
        → All (λ line. length line ≤ 78) (lines_of (solution_text values)) }
{}

/// The text of a log that is found for a formula refutes the text of the formula.
pub fn a_log_that_is_found_refutes_the_text()
    ensures { (formula : Text) (read : DimacsFormula) (log : StepList) → IsFormulaOf formula read
        → IsRight read.clauses (Unsatisfiable log) → IsRefutation formula (log_text log) }
{}
