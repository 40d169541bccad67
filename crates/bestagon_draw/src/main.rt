//! The program `bestagon_draw`: it draws the design of its words on standard output, and ends with the exit status of the
//! answer. It decides nothing and prints nothing of its own.
#![tactic(auto)]

use bx_desk::StdDesk;
use bx_engine::Status;
use bx_picture::run_draw;
use std::alloc::AllocError;
use std::io::ErrorKind;
use std::process::ExitCode;
use std::rt::Files;
use std::{env, fs};

fn main(rt: HostRuntime) -> ExitCode {
    let _standard = [null(&rt), null(&rt), null(&rt)];
    let status = match words(&rt) {
        Ok(words) => run_draw(&rt, rt.alloc(), &words, &mut StdDesk::new(&rt)),
        Err(AllocError) => Status::NoMemory,
    };
    ExitCode::from(status.code())
}

// The words behind the program's name. Where one of them isn't UTF-8 there are none, which are refused as any words that
// ask for no picture.
fn words(rt: &HostRuntime) -> Result<Vec<String>, AllocError> {
    match env::args(rt) {
        Ok(args) => args.skip(1).collect(rt.alloc()),
        Err(error) if error.kind() == ErrorKind::OutOfMemory => Err(AllocError),
        Err(_) => Ok(Vec::new(rt.alloc())),
    }
}

// An open file that can't be written: the three numbers of standard files are taken before any other file is opened.
fn null<R: Files>(rt: &R) -> Option<R::File> {
    fs::open(rt, "/dev/null").ok()
}
