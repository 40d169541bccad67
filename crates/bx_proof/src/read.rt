//! Reading a log: one line after another, each once, and no copy of the text.
ghost use Rattle.std.specs.Prelude.{◌≡◌, ◌≢◌, ℕ, List, IfOk, Err, MatchResult};
ghost use Rattle.bx_lines.specs.Lines.{IsFirstBadLine};
ghost use Rattle.bx_lines.specs.Decimals.{IsNumberAt};
ghost use Rattle.bx_proof.specs.Steps.{StepList};
ghost use Rattle.bx_proof.specs.Texts.{IsTextOf, IsLogText, Reads};

use crate::line::StepLine;
use crate::{StepFault, Steps};
use bx_lines::number_at;
use std::alloc::Global;

/// The steps whose text this is.
///
/// # Errors
///
/// The first bad line, or `NoMemory`.
pub fn read_steps(alloc: Global, text: &[u8]) -> Result<Steps, StepFault>
    // The steps that are answered are those of the text.
    ensures found { IfOk result (λ log. IsTextOf log text.now) }
    // Where the text is that of steps they are answered, unless memory runs out.
    ensures only { (log : StepList) → IsTextOf log text.now
        → MatchResult result (λ steps. steps ≡ log) (λ fault. fault ≡ StepFault.NoMemory) }
    // The line that is answered is the first bad one.
    ensures bad { (k : ℕ) → result ≡ Err (StepFault.BadStep k)
        → IsFirstBadLine IsLogText text.now k }
    // Where there is a first bad line it is answered, unless memory runs out.
    ensures exact { (k : ℕ) → IsFirstBadLine IsLogText text.now k → result ≢ Err StepFault.NoMemory
        → result ≡ Err (StepFault.BadStep k) }
{
    let Some((first, _)) = number_at(text, 4_294_967_295) else {
        return Err(StepFault::BadStep(1));
    };
    read_from(alloc, first as u32, text)
}

// The steps whose text this is, where it begins with the id of the first.
fn read_from(alloc: Global, first: u32, text: &[u8]) -> Result<Steps, StepFault>
    requires { (behind : List ℕ) × IsNumberAt text.now first behind }
    ensures { Reads text.now result }
{
    let mut line = StepLine::new(alloc);
    let mut steps = Steps::new(alloc, first);
    let mut rest = text;
    while !rest.is_empty() {
        let count = u64::from(steps.len());
        let Some(behind) = line.read(rest, u64::from(first) + count)? else {
            return Err(StepFault::BadStep(count + 1));
        };
        steps.push(&line.literals, &line.hints)?;
        rest = behind;
    }
    Ok(steps)
}
