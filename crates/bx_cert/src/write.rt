//! Writing a certificate: each line through a printer, without memory.
ghost use Rattle.std.specs.Prelude.{◌++◌, [], ◌∷◌, flat_map};
ghost use Rattle.bx_desk.specs.Desk.{CanPut};
ghost use Rattle.bx_desk.specs.Pieces.{target_of, PutsOut};
ghost use Rattle.bx_desk.specs.Printing.{Prints};
ghost use Rattle.bx_lines.specs.Lines.{ended, text_of};
ghost use Rattle.bx_cert.specs.Texts.{numbers as numbers_text, count_text, line_text, refutation_lines};
ghost use Rattle.bx_cert.specs.Texts.{section_lines, last_lines, cert_text, IsTextOf};

use crate::line::Line;
use crate::{Cert, CertLast, Section, Spot, Spots};
use bx_desk::{Desk, Failed, Piece, Printer, Word};
use bx_grid::{CountProof, Ratio};
use bx_proof::{Refutation, Steps, print_steps};

/// Puts out the text of a certificate. Takes no memory.
///
/// # Errors
///
/// `Failed` only where the desk could not take all of a full buffer, and its count of such failures rose.
pub fn write_cert<D: Desk>(cert: &Cert, piece: &mut Piece, desk: &mut D) -> Result<(), Failed>
    requires { CanPut (target_of piece.old) (D.state desk.old) }
    ensures puts_out { PutsOut (D.state desk.old) (D.state desk.new) result piece.old piece.new
        (cert_text cert.now) }
    // That is the text of this certificate.
    ensures text { IsTextOf cert.now (cert_text cert.now) }
{
    let mut printer = Printer::new(piece, desk);
    print_cert(cert, &mut printer);
    printer.outcome()
}

// Likewise, through a printer.
fn print_cert<D: Desk>(cert: &Cert, printer: &mut Printer<D>)
    ensures prints { Prints printer.old printer.new (cert_text cert.now) }
    ensures text { IsTextOf cert.now (cert_text cert.now) }
{
    let bounds = Line::Bounds(cert.limits(), cert.budget());
    print_line(Line::Head, printer);
    print_line(bounds, printer);
    print_sections(cert.sections().as_slice(), printer);
    print_last(cert.last(), printer);
    print_line(Line::End, printer);
}

// The lines of sections.
fn print_sections<D: Desk>(sections: &[Section], printer: &mut Printer<D>)
    ensures { Prints printer.old printer.new
        (flat_map (λ section. text_of (section_lines section)) sections.now) }
{
    for section in sections {
        print_section(section, printer);
    }
}

// The lines of a section.
fn print_section<D: Desk>(section: &Section, printer: &mut Printer<D>)
    ensures { Prints printer.old printer.new (text_of (section_lines section.now)) }
{
    match &section.proof {
        Refutation::Count(proof) => print_line(Line::Counted(section.ratio, *proof), printer),
        Refutation::Clauses(steps) => print_run(section.ratio, steps, printer),
    }
}

// The lines of a section by clauses.
fn print_run<D: Desk>(ratio: Ratio, steps: &Steps, printer: &mut Printer<D>)
    ensures { Prints printer.old printer.new
        (text_of (refutation_lines ratio (Refutation.Clauses steps.now))) }
{
    print_line(Line::Run(ratio, steps.len()), printer);
    print_steps(steps, printer);
}

// The lines that say how the search ended.
fn print_last<D: Desk>(last: &CertLast, printer: &mut Printer<D>)
    ensures { Prints printer.old printer.new (text_of (last_lines last.now)) }
{
    match last {
        CertLast::Found(ratio, spots) => print_found(*ratio, spots, printer),
        CertLast::Undecided(ratio, spent) => print_line(Line::GaveUp(*ratio, *spent), printer),
        CertLast::NoneWithin => print_line(Line::NoRatio, printer),
    }
}

// The line of the ratio that was found, and those of the places.
fn print_found<D: Desk>(ratio: Ratio, spots: &Spots, printer: &mut Printer<D>)
    ensures { Prints printer.old printer.new
        (text_of (last_lines (CertLast.Found ratio spots.now))) }
{
    print_line(Line::FoundAt(ratio), printer);
    print_spots(spots.as_slice(), printer);
}

// A line for each place.
fn print_spots<D: Desk>(spots: &[Spot], printer: &mut Printer<D>)
    ensures { Prints printer.old printer.new
        (flat_map (λ spot. ended (line_text (Line.Place spot))) spots.now) }
{
    for spot in spots {
        print_line(Line::Place(*spot), printer);
    }
}

// A line.
fn print_line<D: Desk>(line: Line, printer: &mut Printer<D>)
    ensures { Prints printer.old printer.new (ended (line_text line)) }
{
    print_text(line, printer);
    printer.end_line();
}

// The text of a line.
fn print_text<D: Desk>(line: Line, printer: &mut Printer<D>)
    ensures { Prints printer.old printer.new (line_text line) }
{
    match line {
        Line::Head => printer.bytes(b"bestagon cert 1"),
        Line::Bounds(limits, budget) => {
            let numbers = [
                u64::from(limits.area),
                u64::from(limits.width),
                u64::from(limits.height),
                budget,
            ];
            print_worded(b"limits", &numbers, printer);
        }
        Line::Counted(ratio, proof) => print_counted(ratio, proof, printer),
        Line::Run(ratio, count) => print_sized(b"clauses", ratio, u64::from(count), printer),
        Line::FoundAt(ratio) => print_pair(b"found", ratio.w, ratio.h, printer),
        Line::GaveUp(ratio, spent) => print_sized(b"undecided", ratio, spent, printer),
        Line::NoRatio => printer.bytes(b"none"),
        Line::Place(spot) => print_pair(b"place", spot.x, spot.y, printer),
        Line::End => printer.bytes(b"end"),
    }
}

// The text of a line `count ..`.
fn print_counted<D: Desk>(ratio: Ratio, proof: CountProof, printer: &mut Printer<D>)
    ensures { Prints printer.old printer.new (line_text (Line.Counted ratio proof)) }
{
    print_pair(b"count", ratio.w, ratio.h, printer);
    print_count(proof, printer);
}

// The rest of such a line: which count, and its numbers.
fn print_count<D: Desk>(proof: CountProof, printer: &mut Printer<D>)
    ensures { Prints printer.old printer.new (count_text proof) }
{
    match proof {
        CountProof::Late { node } => print_worded(b" late", &[u64::from(node)], printer),
        CountProof::Crowd { first, last } => print_pair(b" crowd", first, last, printer),
        CountProof::Cut { row } => print_worded(b" cut", &[u64::from(row)], printer),
        CountProof::Pair { one, two } => print_pair(b" pair", one, two, printer),
    }
}

// A word, the sides of a ratio and a further number.
fn print_sized<D: Desk>(word: &[u8], ratio: Ratio, number: u64, printer: &mut Printer<D>)
    ensures { Prints printer.old printer.new
        (word.now ++ numbers_text (ratio.w ∷ ratio.h ∷ number ∷ [])) }
{
    let numbers = [u64::from(ratio.w), u64::from(ratio.h), number];
    print_worded(word, &numbers, printer);
}

// A word and two numbers.
fn print_pair<D: Desk>(word: &[u8], one: u32, two: u32, printer: &mut Printer<D>)
    ensures { Prints printer.old printer.new (word.now ++ numbers_text (one ∷ two ∷ [])) }
{
    print_worded(word, &[u64::from(one), u64::from(two)], printer);
}

// A word and numbers, each behind a space.
fn print_worded<D: Desk>(word: &[u8], numbers: &[u64], printer: &mut Printer<D>)
    ensures { Prints printer.old printer.new (word.now ++ numbers_text numbers.now) }
{
    printer.bytes(word);
    print_numbers(numbers, printer);
}

// Numbers, each behind a space.
fn print_numbers<D: Desk>(numbers: &[u64], printer: &mut Printer<D>)
    ensures { Prints printer.old printer.new (numbers_text numbers.now) }
{
    for number in numbers {
        printer.further(Word::Number(*number));
    }
}
