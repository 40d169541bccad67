//! The program `bestagon_sat`: it runs its words on real files and standard output, and ends with the
//! exit status of the answer. It decides nothing and prints nothing of its own: what is said, and with
//! which status, is for `run_sat` to say.
#![tactic(auto)]

use bx_desk::StdDesk;
use bx_sat::{SatStatus, run_sat};
use std::alloc::AllocError;
use std::io::ErrorKind;
use std::process::ExitCode;
use std::rt::Files;
use std::{env, fs};

fn main(rt: HostRuntime) -> ExitCode {
    let _standard = [null(&rt), null(&rt), null(&rt)];
    let status = match words(&rt) {
        Ok(words) => run_sat(&rt, rt.alloc(), &words, &mut StdDesk::new(&rt)),
        Err(AllocError) => SatStatus::NoMemory,
    };
    ExitCode::from(status.code())
}

// The words behind the program's name. Where one of them isn't UTF-8 there are none, which `run_sat`
// refuses as it refuses any words that are no command.
fn words(rt: &HostRuntime) -> Result<Vec<String>, AllocError> {
    match env::args(rt) {
        Ok(args) => args.skip(1).collect(rt.alloc()),
        Err(error) if error.kind() == ErrorKind::OutOfMemory => Err(AllocError),
        Err(_) => Ok(Vec::new(rt.alloc())),
    }
}

// An open file that can't be written. The system gives a new file the least number that is free: where
// standard output is closed, that would be its own, and what is said would go into the proof. So the three
// numbers of standard files are taken before any other file is opened.
fn null<R: Files>(rt: &R) -> Option<R::File> {
    fs::open(rt, "/dev/null").ok()
}
