//! Writing a design: each line through a printer, without memory.
ghost use Rattle.std.specs.Prelude.{◌++◌, decimal, flat_map};
ghost use Rattle.std.specs.List.{AllByRecursion};
ghost use Rattle.bx_desk.specs.Desk.{CanPut};
ghost use Rattle.bx_desk.specs.Pieces.{target_of, PutsOut};
ghost use Rattle.bx_desk.specs.Printing.{Prints};
ghost use Rattle.bx_grid.specs.Orders.{IsRatio};
ghost use Rattle.bx_library.specs.Dots.{IsAscending};
ghost use Rattle.bx_lines.specs.Lines.{ended};
ghost use Rattle.bx_siqad.specs.Designs.{IsDot};
ghost use Rattle.bx_siqad.specs.Texts.{ratio_line, dot_line, design_text};

use crate::lines::{BACK, FRONT, MIDDLE};
use bx_desk::{Desk, Failed, Piece, Printer};
use bx_grid::Ratio;
use bx_library::Dot;

/// Puts out the text of the design of these sides and dots. Takes no memory.
///
/// # Errors
///
/// `Failed` only where the desk could not take all of a full buffer, and its count of such failures rose.
pub fn write_design<D: Desk>(
    ratio: Ratio,
    dots: &[Dot],
    piece: &mut Piece,
    desk: &mut D,
) -> Result<(), Failed>
    requires can { CanPut (target_of piece.old) (D.state desk.old) }
    requires ratio { IsRatio ratio }
    requires dots { AllByRecursion IsDot dots.now }
    requires ascending { IsAscending dots.now }
    ensures { PutsOut (D.state desk.old) (D.state desk.new) result piece.old piece.new
        (design_text (record { ratio = ratio; dots = dots.now })) }
{
    let mut printer = Printer::new(piece, desk);
    print_design(ratio, dots, &mut printer);
    printer.outcome()
}

// Likewise, through a printer.
fn print_design<D: Desk>(ratio: Ratio, dots: &[Dot], printer: &mut Printer<D>)
    ensures { Prints printer.old printer.new
        (design_text (record { ratio = ratio; dots = dots.now })) }
{
    print_lines(&FRONT, printer);
    print_ratio(ratio, printer);
    print_lines(&MIDDLE, printer);
    print_dots(dots, printer);
    print_lines(&BACK, printer);
}

// These lines.
fn print_lines<D: Desk>(lines: &[&str], printer: &mut Printer<D>)
    ensures { Prints printer.old printer.new (flat_map (λ line. ended line.now) lines.now) }
{
    for line in lines {
        print_line(&[], line, printer);
    }
}

// The line of the sides.
fn print_ratio<D: Desk>(ratio: Ratio, printer: &mut Printer<D>)
    ensures { Prints printer.old printer.new (ended (ratio_line ratio)) }
{
    let fields = [
        ("<created_by>bestagon ", u64::from(ratio.w)),
        (" ", u64::from(ratio.h)),
    ];
    print_line(&fields, "</created_by>", printer);
}

// A line for each dot.
fn print_dots<D: Desk>(dots: &[Dot], printer: &mut Printer<D>)
    ensures { Prints printer.old printer.new (flat_map (λ dot. ended (dot_line dot)) dots.now) }
{
    for dot in dots {
        print_dot(*dot, printer);
    }
}

// The line of a dot.
fn print_dot<D: Desk>(dot: Dot, printer: &mut Printer<D>)
    ensures { Prints printer.old printer.new (ended (dot_line dot)) }
{
    let fields = [
        ("<dbdot><latcoord n=\"", u64::from(dot.n)),
        ("\" m=\"", u64::from(dot.m)),
        ("\" l=\"", u64::from(dot.l)),
    ];
    print_line(&fields, "\"/></dbdot>", printer);
}

// A line of words with a number behind each, and what ends it.
fn print_line<D: Desk>(fields: &[(&str, u64)], end: &str, printer: &mut Printer<D>)
    ensures { Prints printer.old printer.new
        (flat_map (λ field. field.0.now ++ decimal field.1) fields.now ++ ended end.now) }
{
    print_fields(fields, printer);
    printer.bytes(end.as_bytes());
    printer.end_line();
}

// Words with a number behind each.
fn print_fields<D: Desk>(fields: &[(&str, u64)], printer: &mut Printer<D>)
    ensures { Prints printer.old printer.new
        (flat_map (λ field. field.0.now ++ decimal field.1) fields.now) }
{
    for field in fields {
        print_field(field.0, field.1, printer);
    }
}

// A word and a number.
fn print_field<D: Desk>(word: &str, number: u64, printer: &mut Printer<D>)
    ensures { Prints printer.old printer.new (word.now ++ decimal number) }
{
    printer.bytes(word.as_bytes());
    printer.number(number);
}
