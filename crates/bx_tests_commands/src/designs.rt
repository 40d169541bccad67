//! Designs as texts: by their dots, which were worked out from the rule of the sample library, and with some lines
//! in the place of others.

use bx_logic::NoMemory;
use std::alloc::Global;

/// A dot: n, m and l.
pub(crate) type Dot = (u32, u32, u32);

/// An input above an output.
pub(crate) const WIRE_DOTS: &[Dot] = &[
    (1, 1, 0),
    (2, 3, 0),
    (3, 3, 0),
    (4, 3, 0),
    (5, 3, 0),
    (1, 3, 1),
    (5, 7, 0),
    (5, 9, 0),
    (7, 9, 0),
    (8, 9, 0),
    (9, 9, 0),
    (6, 9, 1),
];

/// An inversion between them.
pub(crate) const INVERTER_DOTS: &[Dot] = &[
    (1, 1, 0),
    (2, 3, 0),
    (3, 3, 0),
    (4, 3, 0),
    (5, 3, 0),
    (1, 3, 1),
    (5, 7, 0),
    (5, 9, 0),
    (6, 9, 0),
    (7, 9, 0),
    (9, 9, 0),
    (8, 9, 1),
    (1, 13, 0),
    (3, 15, 0),
    (4, 15, 0),
    (5, 15, 0),
    (1, 15, 1),
    (2, 15, 1),
];

/// A wire between them.
pub(crate) const LONG_DOTS: &[Dot] = &[
    (1, 1, 0),
    (2, 3, 0),
    (3, 3, 0),
    (4, 3, 0),
    (5, 3, 0),
    (1, 3, 1),
    (5, 7, 0),
    (5, 9, 0),
    (6, 9, 0),
    (8, 9, 0),
    (9, 9, 0),
    (7, 9, 1),
    (1, 13, 0),
    (3, 15, 0),
    (4, 15, 0),
    (5, 15, 0),
    (1, 15, 1),
    (2, 15, 1),
];

/// An inversion whose signal leads off the grid.
pub(crate) const LEADS_OFF_DOTS: &[Dot] = &[
    (1, 1, 0),
    (2, 3, 0),
    (3, 3, 0),
    (4, 3, 0),
    (5, 3, 0),
    (1, 3, 1),
    (5, 7, 0),
    (6, 9, 0),
    (7, 9, 0),
    (9, 9, 0),
    (5, 9, 1),
    (8, 9, 1),
    (1, 13, 0),
    (3, 15, 0),
    (4, 15, 0),
    (5, 15, 0),
    (1, 15, 1),
    (2, 15, 1),
];

/// An input alone.
pub(crate) const INPUT_DOTS: &[Dot] = &[
    (1, 1, 0),
    (2, 3, 0),
    (3, 3, 0),
    (4, 3, 0),
    (5, 3, 0),
    (1, 3, 1),
];

const HEAD: &str =
    "<?xml version=\"1.0\" encoding=\"UTF-8\"?>\n<siqad>\n<program>\n<file_purpose>save</file_purpose>\n<created_by>bestagon ";

const SURFACE: &str =
    "</created_by>\n</program>\n<layers>\n<layer_prop><name>Surface</name><type>DB</type></layer_prop>\n</layers>\n<design>\n<layer type=\"DB\">\n";

/// The text of a design one tile wide, of so many rows and with these dots.
pub(crate) fn design_text(alloc: Global, rows: u32, dots: &[Dot]) -> Result<String, NoMemory> {
    let mut text = format!(in alloc; "{HEAD}1 {rows}{SURFACE}")?;
    for &(n, m, l) in dots {
        let line = dot_line(alloc, n, m, l)?;
        text.push_str(line.as_str())?;
    }
    text.push_str("</layer>\n</design>\n</siqad>\n")?;
    Ok(text)
}

// The line of a dot, with its end.
fn dot_line(alloc: Global, n: u32, m: u32, l: u32) -> Result<String, NoMemory> {
    let line = format!(in alloc; "<dbdot><latcoord n=\"{n}\" m=\"{m}\" l=\"{l}\"/></dbdot>\n")?;
    Ok(line)
}

/// A text in which these lines stand in the place of some: those before the first that is replaced stay, and so do those
/// behind the last.
pub(crate) fn rewritten(
    alloc: Global,
    text: &str,
    first: usize,
    replaced: usize,
    lines: &[&str],
) -> Result<String, NoMemory> {
    let mut out = String::new(alloc);
    push_lines(&mut out, text, 0, first)?;
    for line in lines {
        push_line(&mut out, line)?;
    }
    push_lines(&mut out, text, first.saturating_add(replaced), usize::MAX)?;
    Ok(out)
}

// Adds the lines of a text from one on, up to before another.
fn push_lines(out: &mut String, text: &str, from: usize, to: usize) -> Result<(), NoMemory> {
    for (number, line) in text.lines().enumerate() {
        if from <= number && number < to {
            push_line(out, line)?;
        }
    }
    Ok(())
}

fn push_line(out: &mut String, line: &str) -> Result<(), NoMemory> {
    out.push_str(line)?;
    out.push_str("\n")?;
    Ok(())
}
