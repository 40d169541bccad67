//! Reading a certificate: one line after another from the front, and no copy of the text. The steps of a
//! section are cut off at the end of their last line, and read as a log.
ghost use Rattle.std.specs.Prelude.{◌≡◌, ◌≢◌, ◌+◌, ◌-◌, ◌<◌, ◌≤◌, ◌^◌, ◌↔◌, ℕ, List, [], ◌∷◌, ◌++◌, length, flat_map, IfOk, MatchOption, MatchResult, Err, IsTrue};
ghost use Rattle.bx_grid.specs.declared.ratio.Ratio.{Ratio};
ghost use Rattle.bx_lines.specs.Lines.{ended, first_lines, IsFirstBadLine};
ghost use Rattle.bx_cert.specs.Certs.{Certificate};
ghost use Rattle.bx_cert.specs.Texts.{line_text, section_lines, last_lines, IsTextOf, IsCertText, Reads};
ghost use Rattle.bx_cert.specs.Grammar.{IsSaid, Draft, at_head, at_limits, at_section, at_first_step, at_place, at_end};
ghost use Rattle.bx_cert.specs.Readings.{IsLineAt, HasIds, IsRunAt, IsSectionAt, IsNoSection, AreSectionsAt, AreSpotsAt, IsLastAt, IsFrontAt, StopsAt, FitsBehind, fault_behind};

use crate::line::Line;
use crate::scan::line_at;
use crate::{Cert, CertFault, CertLast, Section, Sections, Spot, Spots};
use bx_grid::{Limits, Ratio};
use bx_lines::number_at;
use bx_proof::{Refutation, StepFault, Steps, read_steps};
use std::alloc::Global;

/// The certificate whose text this is.
///
/// # Errors
///
/// The first bad line, or `NoMemory`.
pub fn read_cert(alloc: Global, bytes: &[u8]) -> Result<Cert, CertFault>
    // The certificate that is answered is that of the text.
    ensures found { IfOk result (λ cert. IsTextOf cert bytes.now) }
    // Where the text is that of a certificate it is answered, unless memory runs out.
    ensures only { (cert : Certificate) → IsTextOf cert bytes.now
        → MatchResult result (λ answer. answer ≡ cert) (λ fault. fault ≡ CertFault.NoMemory) }
    // The line that is answered is the first bad one.
    ensures bad { (k : ℕ) → result ≡ Err (CertFault.BadCert k)
        → IsFirstBadLine IsCertText bytes.now k }
    // Where there is a first bad line it is answered, unless memory runs out.
    ensures exact { (k : ℕ) → IsFirstBadLine IsCertText bytes.now k
        → result ≢ Err CertFault.NoMemory → result ≡ Err (CertFault.BadCert k) }
{
    read_whole(alloc, bytes)
}

// The certificate whose text this is.
fn read_whole(alloc: Global, bytes: &[u8]) -> Result<Cert, CertFault>
    ensures { Reads bytes.now result }
{
    let (limits, budget, text) = read_front(bytes)?;
    let (sections, line, text, lines) = read_sections(alloc, text, 2)?;
    let (last, rest, lines) = read_last(alloc, line, text, lines)?;
    if !rest.is_empty() {
        return Err(CertFault::BadCert(lines + 1));
    }
    let sections = Sections::new(sections);
    Ok(Cert::new(limits, budget, sections, last))
}

// Reads the first two lines, and answers what they say and what stands behind them.
fn read_front(bytes: &[u8]) -> Result<(Limits, u64, &[u8]), CertFault>
    ensures { MatchResult result
        (λ front. IsFrontAt bytes.now front.0 front.1 front.2.now)
        (λ fault. StopsAt at_head bytes.now 0 fault) }
{
    let Some((line, text)) = line_at(bytes) else {
        return Err(CertFault::BadCert(1));
    };
    match line {
        Line::Head => read_bounds(text),
        _ => Err(CertFault::BadCert(1)),
    }
}

// Reads the second line, likewise.
fn read_bounds(text: &[u8]) -> Result<(Limits, u64, &[u8]), CertFault>
    ensures { MatchResult result
        (λ front. IsLineAt text.now (Line.Bounds front.0 front.1) front.2.now)
        (λ fault. StopsAt at_limits text.now 1 fault) }
{
    let Some((line, rest)) = line_at(text) else {
        return Err(CertFault::BadCert(2));
    };
    match line {
        Line::Bounds(limits, budget) => Ok((limits, budget, rest)),
        _ => Err(CertFault::BadCert(2)),
    }
}

// Reads sections, up to and with the first line that begins none. Answers them, this line, what stands
// behind it, and how many lines stand before it, where so many stand before the text.
fn read_sections(
    alloc: Global,
    text: &[u8],
    before: u64,
) -> Result<(Vec<Section>, Line, &[u8], u64), CertFault>
    requires { before + length text.now < 2 ^ 64 - 1 }
    ensures { MatchResult result
        (λ read. AreSectionsAt text.now read.0.items read.1 read.2.now × (read.3 ≡ before + length (flat_map section_lines read.0.items)))
        (λ fault. (d : Draft) → StopsAt (at_section d) text.now before fault) }
{
    let mut sections = Vec::new(alloc);
    let mut rest = text;
    let mut lines = before;
    loop {
        let Some((line, behind)) = line_at(rest) else {
            return Err(CertFault::BadCert(lines + 1));
        };
        let Some((section, next, more)) = read_section(alloc, line, behind, lines)? else {
            return Ok((sections, line, behind, lines));
        };
        sections.push(section)?;
        rest = next;
        lines = more;
    }
}

// Reads the section that this line begins, and answers it, what stands behind it, and how many lines stand
// before that, or none where it begins none.
fn read_section<'a>(
    alloc: Global,
    line: Line,
    text: &'a [u8],
    before: u64,
) -> Result<Option<(Section, &'a [u8], u64)>, CertFault>
    requires said { IsSaid line }
    requires room { before + length (ended (line_text line) ++ text.now) < 2 ^ 64 - 1 }
    ensures { MatchResult result
        (λ found. MatchOption found (IsNoSection line)
        (λ read. IsSectionAt (ended (line_text line) ++ text.now) read.0 read.1.now × (read.2 ≡ before + length (section_lines read.0))))
        (λ fault. (d : Draft) → StopsAt (at_section d) (ended (line_text line) ++ text.now) before fault) }
{
    match line {
        Line::Counted(ratio, proof) => {
            let proof = Refutation::Count(proof);
            Ok(Some((Section { ratio, proof }, text, before + 1)))
        }
        Line::Run(ratio, count) => {
            let (steps, rest) = read_run(alloc, text, count, before + 1)?;
            let proof = Refutation::Clauses(steps);
            let lines = before + 1 + u64::from(count);
            Ok(Some((Section { ratio, proof }, rest, lines)))
        }
        _ => Ok(None),
    }
}

// Reads so many steps, where so many lines stand before them, and answers what stands behind them.
fn read_run<'a>(
    alloc: Global,
    text: &'a [u8],
    count: u32,
    before: u64,
) -> Result<(Steps, &'a [u8]), CertFault>
    requires some { 1 ≤ count }
    requires room { before + length text.now < 2 ^ 64 - 1 }
    ensures { MatchResult result
        (λ read. IsRunAt text.now count read.0 read.1.now)
        (λ fault. (d : Draft) (ratio : Ratio) → StopsAt (at_first_step d ratio count) text.now before fault) }
{
    if !has_ids(text, count) {
        return Err(CertFault::BadCert(before + 1));
    }
    let (lines, rest) = cut_lines(text, count);
    match read_steps(alloc, lines) {
        Ok(steps) => {
            if steps.len() == count {
                Ok((steps, rest))
            } else {
                let read = u64::from(steps.len());
                Err(CertFault::BadCert(before + read + 1))
            }
        }
        Err(fault) => Err(fault_behind(before, fault)),
    }
}

// The fault of a log as one of a certificate, where so many lines stand before the log.
fn fault_behind(before: u64, fault: StepFault) -> CertFault
    requires { FitsBehind before fault }
    ensures { result ≡ fault_behind before fault }
{
    match fault {
        StepFault::BadStep(line) => CertFault::BadCert(before + line),
        StepFault::NoMemory => CertFault::NoMemory,
    }
}

// Whether a text begins with an id from which there are ids for so many steps.
fn has_ids(text: &[u8], count: u32) -> bool
    requires { 1 ≤ count }
    ensures { IsTrue result ↔ HasIds text.now count }
{
    match number_at(text, 4_294_967_295) {
        Some((id, _)) => id + u64::from(count) <= 4_294_967_296,
        None => false,
    }
}

// Cuts a text behind so many lines, or at its end.
fn cut_lines(text: &[u8], count: u32) -> (&[u8], &[u8])
    ensures front { result.0.now ≡ first_lines count text.now }
    ensures whole { text.now ≡ result.0.now ++ result.1.now }
{
    let mut left = count;
    for k in 0..text.len() {
        if left == 0 {
            return text.split_at(k);
        }
        left = left_behind(left, text[k]);
    }
    text.split_at(text.len())
}

// How many of so many lines are left behind this byte.
fn left_behind(left: u32, byte: u8) -> u32
    requires { 0 < left }
    ensures { (behind : List ℕ)
        → first_lines left (byte ∷ behind) ≡ byte ∷ first_lines result behind }
{
    if byte == b'\n' { left - 1 } else { left }
}

// Reads how the search ended, which this line says or begins to say, and the end. Answers it, what stands
// behind that, and how many lines stand before that.
fn read_last<'a>(
    alloc: Global,
    line: Line,
    text: &'a [u8],
    before: u64,
) -> Result<(CertLast, &'a [u8], u64), CertFault>
    requires said { IsSaid line }
    requires no_section { IsNoSection line }
    requires room { before + length (ended (line_text line) ++ text.now) < 2 ^ 64 - 1 }
    ensures { MatchResult result
        (λ read. IsLastAt (ended (line_text line) ++ text.now) read.0 read.1.now × (read.2 ≡ before + length (last_lines read.0) + 1))
        (λ fault. (d : Draft) → StopsAt (at_section d) (ended (line_text line) ++ text.now) before fault) }
{
    match line {
        Line::FoundAt(ratio) => {
            let (spots, rest, lines) = read_spots(alloc, text, before + 1)?;
            Ok((CertLast::Found(ratio, spots), rest, lines))
        }
        Line::GaveUp(ratio, spent) => {
            let rest = read_end(text, before + 1)?;
            Ok((CertLast::Undecided(ratio, spent), rest, before + 2))
        }
        Line::NoRatio => {
            let behind = read_end(text, before + 1)?;
            Ok((CertLast::NoneWithin, behind, before + 2))
        }
        _ => Err(CertFault::BadCert(before + 1)),
    }
}

// Reads places and the end, likewise.
fn read_spots(alloc: Global, text: &[u8], before: u64) -> Result<(Spots, &[u8], u64), CertFault>
    requires { before + length text.now < 2 ^ 64 - 1 }
    ensures { MatchResult result
        (λ read. AreSpotsAt text.now read.0 read.1.now × (read.2 ≡ before + length read.0 + 1))
        (λ fault. (d : Draft) (ratio : Ratio) → StopsAt (at_place d ratio []) text.now before fault) }
{
    let mut spots = Vec::new(alloc);
    let mut rest = text;
    let mut lines = before;
    loop {
        let Some((line, behind)) = line_at(rest) else {
            return Err(CertFault::BadCert(lines + 1));
        };
        let spot = match line {
            Line::Place(spot) => spot,
            Line::End => return Ok((Spots::new(spots), behind, lines + 1)),
            _ => return Err(CertFault::BadCert(lines + 1)),
        };
        spots.push(spot)?;
        rest = behind;
        lines += 1;
    }
}

// Reads the end, where so many lines stand before it, and answers what stands behind it.
fn read_end(text: &[u8], before: u64) -> Result<&[u8], CertFault>
    requires { before + length text.now < 2 ^ 64 - 1 }
    ensures { MatchResult result
        (λ rest. text.now ≡ ended (line_text Line.End) ++ rest.now)
        (λ fault. (cert : Certificate) → StopsAt (at_end cert) text.now before fault) }
{
    let Some((line, rest)) = line_at(text) else {
        return Err(CertFault::BadCert(before + 1));
    };
    match line {
        Line::End => Ok(rest),
        _ => Err(CertFault::BadCert(before + 1)),
    }
}
