//! From the file of a certificate to the certificate. What a text is, is for bx_cert to say.
ghost use Rattle.std.specs.Prelude.{◌≡◌, IfOk, IfErr, OnOk};
ghost use Rattle.bx_engine.specs.Designs.{IsShortCert, IsRefusedCert, IsTakenCert};
ghost use Rattle.bx_engine.specs.Runs.{ReadsCert, ReadingEnds, FileEnds};

use crate::limits::CERT_BYTES;
use crate::load::NoInput;
use crate::status::{InputFault, Which};
use bx_cert::{Cert, CertFault, read_cert};
use bx_desk::{Desk, LoadFault};
use std::alloc::Global;

/// Loads the file and reads its certificate.
pub fn load_cert<D: Desk>(alloc: Global, name: &str, desk: &mut D) -> Result<Cert, NoInput>
    ensures cert { IfOk result (ReadsCert (D.state desk.old).files name.now) }
    ensures ok_stays { OnOk result (D.state desk.new ≡ D.state desk.old) }
    ensures err { IfErr result (FileEnds IsRefusedCert (D.state desk.old) (D.state desk.new) name.now) }
{
    let mut text = Vec::new(alloc);
    match desk.load(name, CERT_BYTES, &mut text) {
        Ok(()) => cert_of_text(alloc, &text),
        Err(LoadFault::TooLong) => Err(NoInput::Fault(InputFault::TooLong(Which::CertFile))),
        Err(LoadFault::Failed) => Err(NoInput::Unread),
        Err(LoadFault::NoMemory) => Err(NoInput::NoMemory),
    }
}

// Reads the certificate of a text.
fn cert_of_text(alloc: Global, text: &[u8]) -> Result<Cert, NoInput>
    requires { IsShortCert text.now }
    ensures cert { IfOk result (IsTakenCert text.now) }
    ensures err { IfErr result (ReadingEnds (IsRefusedCert text.now)) }
{
    match read_cert(alloc, text) {
        Ok(cert) => Ok(cert),
        Err(CertFault::BadCert(line)) => Err(NoInput::Fault(InputFault::Cert(CertFault::BadCert(
            line,
        )))),
        Err(CertFault::NoMemory) => Err(NoInput::NoMemory),
    }
}
