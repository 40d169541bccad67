//! What a run says: a line, the line of the first step that fails or of the first bad line of a file, and
//! the values of a solution. Each is said whole, or after a failure of the desk a front of it.
ghost use Rattle.std.specs.Prelude.{List, Bool, ◌≡◌, ◌+◌, ◌≤◌, [], ◌∷◌, length, decimal};
ghost use Rattle.bx_desk.specs.Desk.{CanPut};
ghost use Rattle.bx_desk.specs.Pieces.{pending, target_of, IsToSay, PutsOut};
ghost use Rattle.bx_desk.specs.Printing.{Prints};
ghost use Rattle.bx_sat.specs.Answers.{finding_status, finding_text, answer_status, answer_text};
ghost use Rattle.bx_sat.specs.Sayings.{EndsSaying, failure_text, bad_line_text, solution_text, sign_text, start_text, value_word, word_behind, column_behind};

use crate::checking::Finding;
use crate::solving::Answer;
use crate::status::SatStatus;
use bx_desk::{Desk, Failed, Piece, Printer};
use bx_says::{Word, put_line};

// The most bytes of a line of values, with the one that ends it.
const LINE: usize = 79;

/// Says a text, and ends with the status if that is said.
pub(crate) fn say<D: Desk>(text: &[u8], status: SatStatus, desk: &mut D) -> SatStatus
    ensures { EndsSaying (D.state desk.old) (D.state desk.new) status text.now result }
{
    match desk.say(text) {
        Ok(()) => status,
        Err(Failed) => SatStatus::Failed,
    }
}

/// Says what a proof is.
pub(crate) fn say_finding<D: Desk>(finding: Finding, desk: &mut D) -> SatStatus
    ensures { EndsSaying
        (D.state desk.old) (D.state desk.new)
        (finding_status finding) (finding_text finding) result }
{
    match finding {
        Finding::Verified => say(b"s VERIFIED\n", SatStatus::Verified, desk),
        Finding::Fails(id) => say_failure(id, desk),
        Finding::Open => say(b"s NOT VERIFIED\n", SatStatus::NotVerified, desk),
    }
}

/// Says what is known of a formula; of a solution the values of so many variables, which it has.
pub(crate) fn say_answer<D: Desk>(answer: &Answer, vars: u32, desk: &mut D) -> SatStatus
    requires { (bits : List Bool) → answer.now ≡ Answer.Satisfiable bits → vars ≤ length bits }
    ensures { EndsSaying
        (D.state desk.old) (D.state desk.new)
        (answer_status answer.now) (answer_text vars answer.now) result }
{
    match answer {
        Answer::Satisfiable(bits) => say_solution(&bits.as_slice()[..vars as usize], desk),
        Answer::Unsatisfiable(_) => say(b"s UNSATISFIABLE\n", SatStatus::Unsatisfiable, desk),
        Answer::Unknown => say(b"s UNKNOWN\n", SatStatus::Unknown, desk),
    }
}

// Says that a proof isn't verified, and the id of the first step that fails.
fn say_failure<D: Desk>(id: u64, desk: &mut D) -> SatStatus
    ensures { EndsSaying
        (D.state desk.old) (D.state desk.new) SatStatus.NotVerified (failure_text id) result }
{
    let mut piece = Piece::to_say();
    match put_line(b"s NOT VERIFIED", &[Word::Number(id)], &mut piece, desk) {
        Ok(()) => end(piece, SatStatus::NotVerified, desk),
        Err(Failed) => SatStatus::Failed,
    }
}

/// Says which line of a file is the first that can't be read.
pub(crate) fn say_bad_line<D: Desk>(name: &str, line: u64, desk: &mut D) -> SatStatus
    ensures { EndsSaying
        (D.state desk.old) (D.state desk.new)
        SatStatus.BadLine (bad_line_text name.now line) result }
{
    let mut piece = Piece::to_say();
    let words = [
        Word::Number(line),
        Word::Text(b"of"),
        Word::Text(name.as_bytes()),
    ];
    match put_line(b"c can't read line", &words, &mut piece, desk) {
        Ok(()) => end(piece, SatStatus::BadLine, desk),
        Err(Failed) => SatStatus::Failed,
    }
}

// Says that there is a solution, and its values.
fn say_solution<D: Desk>(bits: &[bool], desk: &mut D) -> SatStatus
    ensures { EndsSaying
        (D.state desk.old) (D.state desk.new)
        SatStatus.Satisfiable (solution_text bits.now) result }
{
    let mut piece = Piece::to_say();
    match put_solution(bits, &mut piece, desk) {
        Ok(()) => end(piece, SatStatus::Satisfiable, desk),
        Err(Failed) => SatStatus::Failed,
    }
}

// Hands on what a piece holds, and ends with the status if that is said.
fn end<D: Desk>(mut piece: Piece, status: SatStatus, desk: &mut D) -> SatStatus
    requires { IsToSay piece }
    ensures { EndsSaying (D.state desk.old) (D.state desk.new) status (pending piece) result }
{
    match piece.end(desk) {
        Ok(()) => status,
        Err(Failed) => SatStatus::Failed,
    }
}

// Puts out that there is a solution, and its values.
fn put_solution<D: Desk>(bits: &[bool], piece: &mut Piece, desk: &mut D) -> Result<(), Failed>
    requires { CanPut (target_of piece.old) (D.state desk.old) }
    ensures { PutsOut
        (D.state desk.old) (D.state desk.new) result piece.old piece.new (solution_text bits.now) }
{
    let mut printer = Printer::new(piece, desk);
    print_solution(bits, &mut printer);
    printer.outcome()
}

// Likewise, through a printer.
fn print_solution<D: Desk>(bits: &[bool], printer: &mut Printer<D>)
    ensures { Prints printer.old printer.new (solution_text bits.now) }
{
    printer.bytes(b"s SATISFIABLE\nv");
    let mut column = 1;
    for (k, bit) in bits.iter().enumerate() {
        column = print_value(k as u64 + 1, *bit, column, printer);
    }
    print_value(0, true, column, printer);
    printer.end_line();
}

// Prints a variable with its value behind so many bytes of a line, or on a line of its own where it has no
// room there. Answers how many bytes the line has then.
fn print_value<D: Desk>(number: u64, value: bool, column: usize, printer: &mut Printer<D>) -> usize
    requires { column ≤ 78 }
    ensures prints { Prints printer.old printer.new
        (word_behind column (value_word number value)) }
    ensures column { result ≡ column_behind column (value_word number value) }
    ensures short { result ≤ 78 }
{
    let mut buffer = itoa::Buffer::new();
    let digits = buffer.format(number).as_bytes();
    let sign = sign_of(value);
    let width = sign.len() + digits.len();
    let fits = column + width < LINE;
    printer.bytes(start_of(fits));
    printer.bytes(sign);
    printer.bytes(digits);
    if fits { column + width } else { 1 + width }
}

// What stands in front of a variable: a space, and the sign of a value that is false.
fn sign_of(value: bool) -> &'static [u8]
    ensures { result.now ≡ sign_text value }
{
    if value { b" " } else { b" -" }
}

// What stands in front of a word: nothing on the same line, and else the start of the next.
fn start_of(fits: bool) -> &'static [u8]
    ensures { result.now ≡ start_text fits }
{
    if fits { b"" } else { b"\nv" }
}
