//! Writing what comes of a search: the design, where there is one, and then the certificate. It promises which of the
//! files were written whole, which one as far as it went, and which weren't begun.
ghost use Rattle.std.specs.Prelude.{◌≡◌, IsSome, OnOk, OnErr, IfErr};
ghost use Rattle.bx_cert.specs.Texts.{cert_text};
ghost use Rattle.bx_desk.specs.Desk.{Writes, WritesFront};
ghost use Rattle.bx_siqad.specs.Texts.{design_text};
ghost use Rattle.bx_engine.specs.Answers.{design_file, cert_file, design_files, files_of};
ghost use Rattle.bx_engine.specs.Effects.{WritesFile, FailsToWrite, WritesAll, FailsToWriteAll};
ghost use Rattle.bx_engine.specs.Steps.{task_of};

use crate::plan::Plan;
use crate::status::Which;
use bx_cert::{Cert, write_cert};
use bx_desk::{Desk, Failed, Piece};
use bx_siqad::{Design, write_design};
use bx_words::DesignCommand;

/// Writes the design, if there is one, and then the certificate.
///
/// # Errors
///
/// The file that couldn't be written.
pub(crate) fn write_files<D: Desk>(
    command: &DesignCommand,
    plan: &Plan,
    desk: &mut D,
) -> Result<(), Which>
    ensures ok { OnOk result (WritesAll (D.state desk.old) (D.state desk.new)
        (files_of (task_of command.now) plan.now.design plan.now.solution.cert)) }
    ensures err { IfErr result (FailsToWriteAll (D.state desk.old) (D.state desk.new)
        (files_of (task_of command.now) plan.now.design plan.now.solution.cert)) }
{
    match write_found(command.design, &plan.design, desk) {
        Ok(()) => write_last(command.cert, &plan.solution.cert, desk),
        Err(Failed) => Err(Which::DesignFile),
    }
}

// Writes the design to the file of this name, if there is one.
fn write_found<D: Desk>(name: &str, design: &Option<Design>, desk: &mut D) -> Result<(), Failed>
    ensures ok { OnOk result (WritesAll (D.state desk.old) (D.state desk.new)
        (design_files name.now design.now)) }
    ensures err { OnErr result (FailsToWriteAll (D.state desk.old) (D.state desk.new)
        (design_files name.now design.now) Which.DesignFile) }
{
    match design {
        Some(design) => write_drawing(name, design, desk),
        None => Ok(()),
    }
}

// Writes the certificate, the last of the files.
fn write_last<D: Desk>(name: &str, cert: &Cert, desk: &mut D) -> Result<(), Which>
    ensures ok { OnOk result (WritesFile (D.state desk.old) (D.state desk.new)
        (cert_file name.now cert.now)) }
    ensures err { IfErr result (λ which. (which ≡ Which.CertFile)
        × FailsToWrite (D.state desk.old) (D.state desk.new) (cert_file name.now cert.now)) }
{
    match write_certificate(name, cert, desk) {
        Ok(()) => Ok(()),
        Err(Failed) => Err(Which::CertFile),
    }
}

// Writes a design to the file of this name.
fn write_drawing<D: Desk>(name: &str, design: &Design, desk: &mut D) -> Result<(), Failed>
    ensures ok { OnOk result (WritesFile (D.state desk.old) (D.state desk.new)
        (design_file name.now design.now)) }
    ensures err { OnErr result (FailsToWrite (D.state desk.old) (D.state desk.new)
        (design_file name.now design.now)) }
{
    desk.start(name)?;
    put_drawing(design, desk)
}

// Writes a design to the started file.
fn put_drawing<D: Desk>(design: &Design, desk: &mut D) -> Result<(), Failed>
    requires { IsSome (D.state desk.old).started }
    ensures ok { OnOk result (Writes (D.state desk.old) (D.state desk.new)
        (design_text design.now)) }
    ensures err { OnErr result (WritesFront (D.state desk.old) (D.state desk.new)
        (design_text design.now)) }
{
    let mut piece = Piece::to_file();
    match write_design(design.ratio(), design.dots(), &mut piece, desk) {
        Ok(()) => piece.end(desk),
        Err(Failed) => Err(Failed),
    }
}

// Writes a certificate to the file of this name.
fn write_certificate<D: Desk>(name: &str, cert: &Cert, desk: &mut D) -> Result<(), Failed>
    ensures ok { OnOk result (WritesFile (D.state desk.old) (D.state desk.new)
        (cert_file name.now cert.now)) }
    ensures err { OnErr result (FailsToWrite (D.state desk.old) (D.state desk.new)
        (cert_file name.now cert.now)) }
{
    desk.start(name)?;
    put_certificate(cert, desk)
}

// Writes a certificate to the started file.
fn put_certificate<D: Desk>(cert: &Cert, desk: &mut D) -> Result<(), Failed>
    requires { IsSome (D.state desk.old).started }
    ensures ok { OnOk result (Writes (D.state desk.old) (D.state desk.new) (cert_text cert.now)) }
    ensures err { OnErr result (WritesFront (D.state desk.old) (D.state desk.new)
        (cert_text cert.now)) }
{
    let mut piece = Piece::to_file();
    match write_cert(cert, &mut piece, desk) {
        Ok(()) => piece.end(desk),
        Err(Failed) => Err(Failed),
    }
}
