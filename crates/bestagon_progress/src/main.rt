//! The program `bestagon`, telling how far it is: what it answers is what the plain program answers, by the same one
//! call, and beside it a second thread tells on standard error how many sizes were tried. Where no thread can be made,
//! the answer comes all the same and nothing is told.
#![tactic(auto)]

use bx_desk::{OpenGate, StdDesk};
use bx_engine::{Status, run};
use bx_progress::{Progress, tell};
use bx_words::{Command, read_words};
use std::alloc::{AllocError, Global};
use std::io::ErrorKind;
use std::process::ExitCode;
use std::rt::Files;
use std::{env, fs, thread};

fn main(rt: HostRuntime) -> ExitCode {
    let _standard = [null(&rt), null(&rt), null(&rt)];
    let status = match words(&rt) {
        Ok(words) => match searched(rt.alloc(), &words) {
            Some(progress) => {
                let (status, ()) = thread::join(
                    &rt,
                    || {
                        let mut desk = StdDesk::new(&rt);
                        let status = run(&rt, rt.alloc(), &words, &mut desk, &progress);
                        progress.end();
                        status
                    },
                    || tell(&rt, rt.alloc(), &progress),
                );
                status
            }
            None => run(&rt, rt.alloc(), &words, &mut StdDesk::new(&rt), &OpenGate),
        },
        Err(AllocError) => Status::NoMemory,
    };
    ExitCode::from(status.code())
}

// The progress of the search that the words ask for.
fn searched(alloc: Global, words: &[String]) -> Option<Progress> {
    match read_words(alloc, words) {
        Ok(Command::Design(command)) => Some(Progress::new(command.limits)),
        _ => None,
    }
}

// The words behind the program's name. Where one of them isn't UTF-8 there are none, which `run` refuses as it refuses
// any words that are no command.
fn words(rt: &HostRuntime) -> Result<Vec<String>, AllocError> {
    match env::args(rt) {
        Ok(args) => args.skip(1).collect(rt.alloc()),
        Err(error) if error.kind() == ErrorKind::OutOfMemory => Err(AllocError),
        Err(_) => Ok(Vec::new(rt.alloc())),
    }
}

// An open file that can't be written, as in the plain program: the three numbers of standard files are taken before any
// other file is opened.
fn null<R: Files>(rt: &R) -> Option<R::File> {
    fs::open(rt, "/dev/null").ok()
}
