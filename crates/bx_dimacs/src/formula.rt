//! Reading a formula: the header, and then number after number. What a clause is made of is gathered up to
//! the 0 that ends it, so that lines part nothing.
ghost use Rattle.std.specs.Prelude.{◌^◌, ◌+◌, ◌<◌, ◌≤◌, ◌⊎◌, length, ℕ, ◌≡◌, ◌≢◌, pos, Ok, Err, IfOk, IfErr, IsTrue, Some, option_map, is_some};
ghost use Rattle.bx_cnf.specs.Formulas.{IsFormula};
ghost use Rattle.bx_cnf.specs.Literals.{literal_of as literal_in};
ghost use Rattle.bx_dimacs.specs.Words.{words_of, number_of as number_in};
ghost use Rattle.bx_dimacs.specs.FormulaTexts.{FormulaText, formula_of, empty_text, header_of as header_in, is_full as is_whole};
ghost use Rattle.bx_dimacs.specs.FormulaTexts.{with_literal, with_number, with_word, with_words, end_at, clauses_behind, header_behind};
ghost use Rattle.bx_dimacs.specs.Keeping.{IsFormulaOf};
ghost use Rattle.bx_dimacs.specs.Faults.{IsLine, IsStuckAt};

use crate::TextFault;
use crate::draft::Draft;
use crate::literals::{literal_of, put_in_order};
use crate::scan::{Lines, behind_word, number_of, signed_of, word_at};
use bx_cnf::{Clauses, Lit, is_clause};
use bx_logic::NoMemory;
use std::alloc::Global;

// The greatest variable.
const MAX_VARIABLE: u32 = 2_147_483_647;

/// A formula that was read.
#[derive(Drop)]
pub struct DimacsFormula {
    /// The clauses, by their numbers in the file. Each tautology among them has two variables of its own,
    /// beyond those that the file declares.
    pub clauses: Clauses,
    /// How many variables the file declares.
    pub vars: u32,
}

/// The formula of a text.
///
/// # Errors
///
/// The first line that can't be read, or `NoMemory`.
pub fn read_formula(alloc: Global, text: &[u8]) -> Result<DimacsFormula, TextFault>
    // It keeps what the text says, as it declares it.
    ensures said { IfOk result (IsFormulaOf text.now) }
    // It is refused where the text is stuck, and that line is told.
    ensures stuck { IfErr result (IsStuckAt (formula_of text.now)) }
    // What is read is a formula, over the declared variables and maybe more.
    ensures formed { IfOk result (λ read. IsFormula read.clauses) }
    ensures declared { IfOk result (λ read. read.vars ≤ read.clauses.vars) }
    // Lines are counted from 1.
    ensures counted { (k : ℕ) → result ≡ Err (TextFault.BadLine k) → 0 < k }
{
    let mut lines = Lines::new(text);
    let header = read_header(&mut lines)?;
    let mut reading = Reading::new(alloc, header);
    reading.read_clauses(&mut lines)?;
    reading.into_formula(alloc)
}

// What a header declares.
#[derive(Drop)]
struct Header {
    vars: u32,
    clauses: u32,
    ghost in_range: { vars < 2 ^ 31 },
}

// Reads the header, the first line that is no comment.
fn read_header(lines: &mut Lines) -> Result<Header, TextFault>
    ensures said { IfOk result (λ header. header_behind lines.old.number lines.old.rest.now
        ≡ clauses_behind (empty_text header.vars header.clauses)
        lines.new.number lines.new.rest.now) }
    ensures stuck { IfErr result (IsStuckAt (header_behind lines.old.number lines.old.rest.now)) }
    ensures counted { IfErr result IsLine }
{
    let Some(line) = lines.next() else {
        return Err(TextFault::BadLine(lines.next_number()));
    };
    match header_of(line) {
        Some(header) => Ok(header),
        None => Err(TextFault::BadLine(lines.number())),
    }
}

// The header that a line is.
fn header_of(line: &[u8]) -> Option<Header>
    ensures { option_map (λ header. empty_text header.vars header.clauses) result
        ≡ header_in (words_of line.now) }
{
    let rest = behind_word(line, b"p")?;
    let rest = behind_word(rest, b"cnf")?;
    let (vars, rest) = word_at(rest)?;
    let (clauses, rest) = word_at(rest)?;
    if word_at(rest).is_some() {
        return None;
    }
    let vars = count_of(vars)?;
    let clauses = count_of(clauses)?;
    if vars > MAX_VARIABLE {
        return None;
    }
    Some(Header { vars, clauses })
}

// The number that a word of digits spells, of 32 bits at most.
fn count_of(word: &[u8]) -> Option<u32>
    ensures { result ≡ number_in 32 word.now }
{
    u32::try_from(number_of(word)?).ok()
}

// What was read so far: clauses, and literals of one that has no end yet.
#[derive(Drop)]
struct Reading {
    header: Header,
    draft: Draft,
    literals: Vec<Lit>,
}

impl Reading {
    ghost use Rattle.bx_dimacs.specs.Shown.{Shows, GoesOn};

    // Nothing behind the header. Takes no memory.
    fn new(alloc: Global, header: Header) -> Self
        ensures { Shows result (empty_text header.vars header.clauses) }
    {
        let draft = Draft::new(alloc, header.vars);
        Reading {
            header,
            draft,
            literals: Vec::new(alloc),
        }
    }

    // Reads the clauses, up to a line that begins with `%` or to the end of the text.
    fn read_clauses(&mut self, lines: &mut Lines) -> Result<(), TextFault>
        ensures said { (text : FormulaText) → Shows self.old text
            → IfOk result (λ _. (said : FormulaText)
            × (clauses_behind text lines.old.number lines.old.rest.now ≡ Ok said)
            × Shows self.new said) }
        ensures stuck { (text : FormulaText) → Shows self.old text
            → IfErr result (IsStuckAt (clauses_behind text lines.old.number lines.old.rest.now)) }
        ensures counted { IfErr result IsLine }
    {
        while let Some(line) = lines.next() {
            if behind_word(line, b"%").is_some() {
                return self.end(lines.number());
            }
            if !self.read_line(line)? {
                return Err(TextFault::BadLine(lines.number()));
            }
        }
        self.end(lines.next_number())
    }

    // Whether all clauses were read, where no more come from this line on.
    fn end(&self, line: u64) -> Result<(), TextFault>
        requires { 0 < line }
        ensures said { (text : FormulaText) → Shows self.now text
            → IfOk result (λ _. end_at line text ≡ Ok text) }
        ensures stuck { (text : FormulaText) → Shows self.now text
            → IfErr result (IsStuckAt (end_at line text)) }
        ensures counted { IfErr result IsLine }
    {
        if self.is_full() && self.literals.is_empty() {
            Ok(())
        } else {
            Err(TextFault::BadLine(line))
        }
    }

    // Whether there are as many clauses as the header declares.
    fn is_full(&self) -> bool
        ensures whole { (text : FormulaText) → Shows self.now text → result ≡ is_whole text }
        ensures room { IsTrue result ⊎ (length self.now.draft.clauses < 4294967295) }
    {
        self.draft.len() >= self.header.clauses
    }

    // Reads a line, and tells whether it could be read.
    fn read_line(&mut self, line: &[u8]) -> Result<bool, NoMemory>
        ensures { (text : FormulaText) → Shows self.old text
            → IfOk result (λ is. GoesOn self.new is (with_words text (words_of line.now))) }
    {
        let mut rest = line;
        while let Some((word, behind)) = word_at(rest) {
            if !self.read_word(word)? {
                return Ok(false);
            }
            rest = behind;
        }
        Ok(true)
    }

    // Reads a word, likewise.
    fn read_word(&mut self, word: &[u8]) -> Result<bool, NoMemory>
        ensures { (text : FormulaText) → Shows self.old text
            → IfOk result (λ is. GoesOn self.new is (with_word text word.now)) }
    {
        if self.is_full() {
            return Ok(false);
        }
        match signed_of(word) {
            None => Ok(false),
            Some(0) => self.end_clause(),
            Some(number) => self.read_literal(number),
        }
    }

    // Reads a literal, likewise.
    fn read_literal(&mut self, number: i64) -> Result<bool, NoMemory>
        requires { number ≢ pos 0 }
        ensures { (text : FormulaText) → Shows self.old text
            → IfOk result (λ is. GoesOn self.new is (with_literal text (literal_in number))) }
    {
        let Some(literal) = literal_of(number) else {
            return Ok(false);
        };
        if literal.var() > self.header.vars {
            return Ok(false);
        }
        self.literals.push(literal)?;
        Ok(true)
    }

    // Ends the clause, likewise: with a tautology more there may be too many variables.
    fn end_clause(&mut self) -> Result<bool, NoMemory>
        requires { length self.old.draft.clauses < 4294967295 }
        ensures { (text : FormulaText) → Shows self.old text
            → IfOk result (λ is. GoesOn self.new is (with_number text (Some (pos 0)))) }
    {
        put_in_order(&mut self.literals);
        if is_clause(&self.literals, self.draft.vars()) {
            self.draft.push(&self.literals)?;
            self.literals.clear();
            return Ok(true);
        }
        if self.draft.vars() > MAX_VARIABLE - 2 {
            return Ok(false);
        }
        self.draft.push_apart()?;
        self.literals.clear();
        Ok(true)
    }

    // The formula.
    fn into_formula(self, alloc: Global) -> Result<DimacsFormula, TextFault>
        ensures vars { IfOk result (λ read. read.vars ≡ self.header.vars) }
        ensures clauses { IfOk result (λ read. read.clauses ≡ self.draft) }
        ensures memory { IfErr result (λ fault. fault ≡ TextFault.NoMemory) }
    {
        let vars = self.header.vars;
        let clauses = self.draft.into_clauses(alloc)?;
        Ok(DimacsFormula { clauses, vars })
    }
}
