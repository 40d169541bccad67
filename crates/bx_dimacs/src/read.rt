//! Reading the steps of a proof, line by line. A step's own id is that of its place behind the formula's
//! clauses; where its hints name steps by the file's ids, these are looked up among those that came before,
//! which ascend.
ghost use Rattle.std.specs.Prelude.{◌≡◌, ◌+◌, ◌<◌, ◌^◌, ◌∷◌, ℕ, false, map, length, is_some, All, IfOk, IfErr, IfSome, IsTrue, slice_index};
ghost use Rattle.std.specs.List.{list_all};
ghost use Rattle.std.specs.List.Sorted.{IsStrictlyIncreasing};
ghost use Rattle.bx_cnf.specs.Formulas.{IsClause};
ghost use Rattle.bx_cnf.specs.Literals.{literal_of as literal_in};
ghost use Rattle.bx_dimacs.specs.Faults.{IsLine, IsStuckAt};
ghost use Rattle.bx_dimacs.specs.Keeping.{AreInOrder};
ghost use Rattle.bx_dimacs.specs.Proofs.{IsOpen, IsOwnId, AreOwnIds, IsProofOf, IsRead, IsStepOver};
ghost use Rattle.bx_dimacs.specs.ProofTexts.{ProofText, is_clause_over, last_id as last_of, line_of, may_pass, names_clause, no_steps as none, proof_of, with_line, with_step};
ghost use Rattle.bx_dimacs.specs.StepsShown.{GoesOnAs, KeepsSoFar, StandsAt, step_made, step_of};
ghost use Rattle.bx_dimacs.specs.Words.{words_of};

use crate::line::{Line, StepLine};
use crate::literals::{literal_of, put_in_order};
use crate::scan::Lines;
use crate::{LratProof, TextFault};
use bx_cnf::{Clauses, Lit, is_clause};
use bx_logic::NoMemory;
use bx_proof::{Steps, is_step};
use std::alloc::Global;

/// The proof of a text, for a formula.
pub(crate) fn read_steps(
    alloc: Global,
    clauses: &Clauses,
    text: &[u8],
) -> Result<LratProof, TextFault>
    ensures read { IfOk result (λ read. IsRead clauses.now read) }
    ensures said { IfOk result (IsProofOf clauses.now text.now) }
    ensures stuck { IfErr result (IsStuckAt (proof_of clauses.now text.now)) }
    ensures counted { IfErr result IsLine }
{
    let mut lines = Lines::new(text);
    let mut reader = Reader::new(alloc);
    let mut proof = no_steps(alloc, clauses)?;
    while let Some(line) = lines.next() {
        match reader.read_line(line, clauses, &mut proof)? {
            Progress::On => {}
            Progress::Ended => return Ok(proof),
            Progress::Bad => return Err(TextFault::BadLine(lines.number())),
        }
    }
    Ok(proof)
}

// No steps behind the clauses of a formula. A store of as many clauses as it can keep leaves no id.
fn no_steps(alloc: Global, clauses: &Clauses) -> Result<LratProof, NoMemory>
    ensures stands { IfOk result (λ read. IsOpen clauses.now read) }
    ensures keeps { IfOk result (λ read. KeepsSoFar clauses.now read false none) }
{
    let count = clauses.len();
    if count == u32::MAX {
        return Err(NoMemory);
    }
    Ok(LratProof {
        steps: Steps::new(alloc, count + 1),
        ids: Vec::new(alloc),
        ill: None,
    })
}

/// How a proof goes on behind a line.
pub(crate) enum Progress {
    /// More lines may follow.
    On,
    /// It ends: the step is empty, or ill.
    Ended,
    /// The line can't be read.
    Bad,
}

// What a line is read into, which serves for all lines: its numbers, and the step that they make.
#[derive(Drop)]
struct Reader {
    line: StepLine,
    literals: Vec<Lit>,
    hints: Vec<u32>,
}

impl Reader {
    // Takes no memory.
    fn new(alloc: Global) -> Self {
        Reader {
            line: StepLine::new(alloc),
            literals: Vec::new(alloc),
            hints: Vec::new(alloc),
        }
    }

    // Reads a line behind the steps of a proof.
    fn read_line(
        &mut self,
        text: &[u8],
        clauses: &Clauses,
        proof: &mut LratProof,
    ) -> Result<Progress, NoMemory>
        requires { IsOpen clauses.now proof.old }
        ensures stands { IfOk result (λ progress. StandsAt clauses.now proof.new progress) }
        ensures keeps { (said : ProofText) → KeepsSoFar clauses.now proof.old false said
            → IfOk result (λ progress. GoesOnAs clauses.now proof.new progress
            (with_line clauses.now said (line_of (words_of text.now)))) }
    {
        match self.line.read(text)? {
            Line::Bad => Ok(Progress::Bad),
            Line::Deletion => Ok(Progress::On),
            Line::Step(id) => self.read_step(id, clauses, proof),
        }
    }

    // Adds the step of the line that was read, where its numbers make one.
    fn read_step(
        &mut self,
        id: u64,
        clauses: &Clauses,
        proof: &mut LratProof,
    ) -> Result<Progress, NoMemory>
        requires { IsOpen clauses.now proof.old }
        ensures stands { IfOk result (λ progress. StandsAt clauses.now proof.new progress) }
        ensures keeps { (said : ProofText) → KeepsSoFar clauses.now proof.old false said
            → IfOk result (λ progress. GoesOnAs clauses.now proof.new progress
            (with_step clauses.now said (step_of self.old.line id))) }
    {
        if id <= last_id(clauses.len(), &proof.ids) {
            return Ok(Progress::Bad);
        }
        let own = u64::from(proof.steps.first()) + u64::from(proof.steps.len());
        if own > u64::from(u32::MAX) {
            return Err(NoMemory);
        }
        if !self.make_step(own, clauses, &proof.ids)? {
            proof.ill = Some(id);
            return Ok(Progress::Ended);
        }
        proof.ids.push(id)?;
        proof.steps.push(&self.literals, &self.hints)?;
        if self.literals.is_empty() {
            Ok(Progress::Ended)
        } else {
            Ok(Progress::On)
        }
    }

    // Makes a step of the numbers of the line, and tells whether they make one of this id.
    fn make_step(&mut self, own: u64, clauses: &Clauses, ids: &[u64]) -> Result<bool, NoMemory>
        requires own { own ≡ length clauses.now.clauses + 1 + length ids.now }
        requires room { own < 2 ^ 32 }
        requires ascending { IsStrictlyIncreasing (length clauses.now.clauses ∷ ids.now) }
        ensures exact { IfOk result (λ is. is
            ≡ may_pass clauses.now ids.now (step_of self.old.line own)) }
        ensures over { IfOk result (λ is. IsTrue is
            → IsStepOver clauses.now own (step_made self.new)) }
        ensures ordered { IfOk result (λ is. IsTrue is
            → AreInOrder (map literal_in self.old.line.literals.items) self.new.literals.items) }
        ensures named { IfOk result (λ is. IsTrue is
            → AreOwnIds (length clauses.now.clauses) ids.now
            self.old.line.hints.items self.new.hints.items) }
    {
        let is_over = find_literals(&self.line.literals, clauses.vars(), &mut self.literals)?;
        let are_named = find_hints(&self.line.hints, clauses.len(), ids, &mut self.hints)?;
        if !is_over {
            return Ok(false);
        }
        if !are_named {
            return Ok(false);
        }
        Ok(is_step(own, &self.literals, &self.hints))
    }
}

// The file's id of the last step, or the number of the formula's last clause where there is none.
fn last_id(count: u32, ids: &[u64]) -> u64
    ensures { result ≡ slice_index (count ∷ ids.now) (length ids.now) }
{
    match ids.last() {
        Some(id) => *id,
        None => u64::from(count),
    }
}

// Finds the literals that numbers are, and tells whether they make a clause over variables 1 to `vars`.
fn find_literals(numbers: &[i64], vars: u32, literals: &mut Vec<Lit>) -> Result<bool, NoMemory>
    requires { vars < 2 ^ 31 }
    ensures exact { IfOk result (λ is. is ≡ is_clause_over vars (map literal_in numbers.now)) }
    ensures clause { IfOk result (λ is. IsTrue is → IsClause vars literals.new.items) }
    ensures ordered { IfOk result (λ is. IsTrue is
        → AreInOrder (map literal_in numbers.now) literals.new.items) }
{
    if !put_literals(numbers, literals)? {
        return Ok(false);
    }
    put_in_order(literals);
    Ok(is_clause(literals, vars))
}

// Puts the literals that numbers are into a list, and tells whether each is one.
fn put_literals(numbers: &[i64], literals: &mut Vec<Lit>) -> Result<bool, NoMemory>
    ensures found { IfOk result (λ is. IsTrue is
        → literals.new.items ≡ map literal_in numbers.now) }
    ensures positive { IfOk result (λ is. IsTrue is → All (λ l. 0 < l.var) literals.new.items) }
    ensures none { IfOk result (λ is. is ≡ false → (vars : ℕ) → vars < 2 ^ 31
        → is_clause_over vars (map literal_in numbers.now) ≡ false) }
{
    literals.clear();
    for number in numbers {
        let Some(literal) = literal_of(*number) else {
            return Ok(false);
        };
        literals.push(literal)?;
    }
    Ok(true)
}

// Finds the own ids of the clauses that numbers name, and tells whether each names one.
fn find_hints(
    numbers: &[i64],
    count: u32,
    ids: &[u64],
    hints: &mut Vec<u32>,
) -> Result<bool, NoMemory>
    requires room { count + 1 + length ids.now < 2 ^ 32 }
    requires ascending { IsStrictlyIncreasing (count ∷ ids.now) }
    ensures exact { IfOk result (λ are. are ≡ list_all (names_clause count ids.now) numbers.now) }
    ensures named { IfOk result (λ are. IsTrue are
        → AreOwnIds count ids.now numbers.now hints.new.items) }
{
    hints.clear();
    for number in numbers {
        let Some(hint) = own_id(*number, count, ids) else {
            return Ok(false);
        };
        hints.push(hint)?;
    }
    Ok(true)
}

// The own id of the clause with this id in the file: behind so many clauses, which have the same in both,
// come steps with these.
fn own_id(number: i64, count: u32, ids: &[u64]) -> Option<u32>
    requires room { count + 1 + length ids.now < 2 ^ 32 }
    requires ascending { IsStrictlyIncreasing (count ∷ ids.now) }
    ensures own { IfSome result (IsOwnId count ids.now number) }
    ensures exact { is_some result ≡ names_clause count ids.now number }
{
    let id = u64::try_from(number).ok()?;
    if id == 0 {
        return None;
    }
    if id <= u64::from(count) {
        return Some(id as u32);
    }
    match ids.binary_search(&id) {
        Ok(place) => Some(count + 1 + place as u32),
        Err(_) => None,
    }
}
