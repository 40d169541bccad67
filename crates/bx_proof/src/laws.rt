//! Laws about the definitions alone, each the clause of a function with an empty body. Nothing here
//! runs.
ghost use Rattle.std.specs.Prelude.{◌≡◌, ◌⊎◌, ℕ, List};
ghost use Rattle.bx_lines.specs.Lines.{IsFirstBadLine};
ghost use Rattle.bx_proof.specs.Steps.{StepList};
ghost use Rattle.bx_proof.specs.Texts.{IsTextOf, IsLogText};

/// Bytes are the text of one log at most.
pub fn a_text_has_one_log()
    ensures { (bytes : List ℕ) (a b : StepList) → IsTextOf a bytes → IsTextOf b bytes → a ≡ b }
{}

/// Bytes have one first bad line at most, and none where they are the text of a log.
pub fn a_text_of_a_log_has_no_bad_line()
    ensures one { (bytes : List ℕ) (j k : ℕ) → IsFirstBadLine IsLogText bytes j
        → IsFirstBadLine IsLogText bytes k → j ≡ k }
    ensures none { (bytes : List ℕ) (k : ℕ) → IsLogText bytes → IsFirstBadLine IsLogText bytes k
        → ⊥ }
{}

/// Bytes are the text of a log, or they have a first bad line.
pub fn bytes_are_a_log_or_have_a_bad_line()
    ensures { (bytes : List ℕ) → IsLogText bytes ⊎ ((k : ℕ) × IsFirstBadLine IsLogText bytes k) }
{}
