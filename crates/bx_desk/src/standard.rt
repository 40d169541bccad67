//! The real desk: files of the system and standard output. What it does once the system has answered
//! is proved over any reader and writer. No clause can say what a real file or terminal holds, so this
//! desk tells neither its files nor what was said: that it asks for the named file and for standard
//! output is left to tests.
ghost use Rattle.std.specs.Prelude.{◌≡◌, ◌+◌, ◌-◌, ◌^◌, ◌≤◌, [], min, false, vec_len, IfOk, OnOk, OnErr, IsOk, IsErr, IsErrOf, IsTrue, Some, None};
ghost use Rattle.std.specs.Io.KnownBytes.{Appends};
ghost use Rattle.bx_desk.specs.Standard.{AppendsFront, IsWhole, IsFront};

use crate::{Desk, Failed, LoadFault};
use std::fs;
use std::io::{self, Read, Write};
use std::rt::Files;

// How many bytes one read asks for.
const CHUNK: usize = 16384;

/// Real files and standard output.
#[derive(Drop)]
pub struct StdDesk<'a, R: Files> {
    rt: &'a R,
    started: Option<R::File>,
    pub(crate) load_faults: u64,
    pub(crate) write_faults: u64,
    pub(crate) say_faults: u64,
}

impl<'a, R: Files + Print> StdDesk<'a, R> {
    /// A desk that has started no file and has not failed yet. Takes no memory.
    pub fn new(rt: &'a R) -> Self
        ensures started { result.started ≡ None }
        ensures load_faults { result.load_faults ≡ 0 }
        ensures write_faults { result.write_faults ≡ 0 }
        ensures say_faults { result.say_faults ≡ 0 }
    {
        StdDesk {
            rt,
            started: None,
            load_faults: 0,
            write_faults: 0,
            say_faults: 0,
        }
    }
}

impl<R: Files + Print> Desk for StdDesk<'_, R> {
    ghost use Rattle.std.specs.Prelude.{None, option_map};

    ghost state = { λ d. record {
      files = None;
      started = option_map (λ _. None) d.started;
      said = None;
      faults = record { load = d.load_faults; write = d.write_faults; say = d.say_faults };
    } };

    fn load(&mut self, name: &str, limit: u64, into: &mut Vec<u8>) -> Result<(), LoadFault> {
        let answer = read_opened(fs::open(self.rt, name), limit, into);
        let has_failed = matches!(answer, Err(LoadFault::Failed));
        tally(has_failed, &mut self.load_faults);
        answer
    }

    fn start(&mut self, name: &str) -> Result<(), Failed> {
        let answer = keep_made(&mut self.started, fs::create(self.rt, name));
        tally(answer.is_err(), &mut self.write_faults);
        answer
    }

    fn has_started(&self) -> bool {
        self.started.is_some()
    }

    fn append(&mut self, piece: &[u8]) -> Result<(), Failed> {
        let answer = match &mut self.started {
            Some(file) => write_whole(file, piece),
            None => unreachable!(),
        };
        tally(answer.is_err(), &mut self.write_faults);
        answer
    }

    fn say(&mut self, piece: &[u8]) -> Result<(), Failed> {
        let answer = write_whole(&mut io::writer(self.rt), piece);
        tally(answer.is_err(), &mut self.say_faults);
        answer
    }
}

// Counts a call that failed. At the end of its type the count stays.
fn tally(has_failed: bool, count: &mut u64)
    ensures failed { IsTrue has_failed → count.new ≡ min (count.old + 1) (2 ^ 64 - 1) }
    ensures ok { has_failed ≡ false → count.new ≡ count.old }
    ensures no_fall { count.old ≤ count.new }
{
    if has_failed {
        *count = count.saturating_add(1);
    }
}

// What a start comes to, where the system answered so: the file that it made is the started one.
fn keep_made<F: Drop>(started: &mut Option<F>, made: io::Result<F>) -> Result<(), Failed>
    ensures made { IfOk made (λ file. started.new ≡ Some file) }
    ensures ok { IfOk made (λ _. IsOk result) }
    ensures none_made { OnErr made (started.new ≡ None) }
    ensures err { OnErr made (IsErr result) }
{
    match made {
        Ok(file) => {
            *started = Some(file);
            Ok(())
        }
        Err(_) => {
            *started = None;
            Err(Failed)
        }
    }
}

// What a load comes to, where the system answered so: what reading says of a file that was opened, and
// `Failed` where none was.
fn read_opened<F: Read + Drop>(
    opened: io::Result<F>,
    limit: u64,
    into: &mut Vec<u8>,
) -> Result<(), LoadFault>
    requires { into.old.items ≡ [] }
    ensures not_opened { OnErr opened (IsErrOf result LoadFault.Failed) }
    ensures whole { OnOk result (IfOk opened (λ file. IsWhole (F.remaining file) into.new.items)) }
    ensures within { OnOk result (vec_len into.new ≤ limit) }
    ensures too_long { IsErrOf result LoadFault.TooLong → vec_len into.new ≡ limit + 1 }
    ensures front { IsErrOf result LoadFault.TooLong
        → IfOk opened (λ file. IsFront (F.remaining file) into.new.items) }
    ensures failed_empty { IsErrOf result LoadFault.Failed → into.new.items ≡ [] }
    ensures no_memory_empty { IsErrOf result LoadFault.NoMemory → into.new.items ≡ [] }
{
    match opened {
        Ok(mut file) => read_within(&mut file, limit, into),
        Err(_) => Err(LoadFault::Failed),
    }
}

// Reads into an empty vector, to the end or to the first byte past the limit.
fn read_within<F: Read>(file: &mut F, limit: u64, into: &mut Vec<u8>) -> Result<(), LoadFault>
    requires { into.old.items ≡ [] }
    ensures whole { OnOk result (IsWhole (F.remaining file.old) into.new.items) }
    ensures within { OnOk result (vec_len into.new ≤ limit) }
    ensures too_long { IsErrOf result LoadFault.TooLong → vec_len into.new ≡ limit + 1 }
    ensures front { IsErrOf result LoadFault.TooLong
        → IsFront (F.remaining file.old) into.new.items }
    ensures failed_empty { IsErrOf result LoadFault.Failed → into.new.items ≡ [] }
    ensures no_memory_empty { IsErrOf result LoadFault.NoMemory → into.new.items ≡ [] }
{
    let mut chunk = [0u8; CHUNK];
    while into.len() as u64 <= limit {
        let most = (limit - into.len() as u64).min(CHUNK as u64 - 1) as usize + 1;
        let Ok(count) = file.read(&mut chunk[..most]) else {
            into.clear();
            return Err(LoadFault::Failed);
        };
        if count == 0 {
            return Ok(());
        }
        if into.extend_from_slice(&chunk[..count]).is_err() {
            into.clear();
            return Err(LoadFault::NoMemory);
        }
    }
    Err(LoadFault::TooLong)
}

// Writes all of the bytes, or after a failure a front of them. A writer that takes none has failed.
fn write_whole<W: Write>(out: &mut W, bytes: &[u8]) -> Result<(), Failed>
    ensures whole { OnOk result (Appends (W.contents out.old) (W.contents out.new) bytes.now) }
    ensures front { OnErr result
        (AppendsFront (W.contents out.old) (W.contents out.new) bytes.now) }
{
    let mut rest = bytes;
    while !rest.is_empty() {
        match out.write(rest) {
            Ok(count) if count > 0 => rest = &rest[count..],
            _ => return Err(Failed),
        }
    }
    Ok(())
}
