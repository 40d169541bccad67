//! Tests of the real desk: that it opens and writes the named files of the system, and tells what failed.
ghost use Rattle.std.specs.Prelude.{◌≡◌, []};

use crate::asserts::{are_faults_in, is_bytes, is_so, is_so_in, is_text_in};
use crate::desk::told;
use bx_desk::{Desk, StdDesk};
use std::alloc::Global;
use std::process::Abort;
use std::rt::Files;
use std::test::Fail;
use std::{env, fs, process};

// Bytes that take three reads.
const LONG: usize = 3 * 16_384;

const LIMIT: u64 = 3 * 16_384;

// What a desk is asked to load: a file of the system with as many bytes, one that isn't there, or a folder.
#[derive(Clone, Copy)]
enum Place {
    File,
    Missing,
    Folder,
}

// A place and a limit; the answer, how many bytes are left, and how many loads have failed.
const LOADS: &[(&str, Place, u64, &str, usize, u64)] = &[
    ("at its limit", Place::File, LIMIT, "loaded", LONG, 0),
    ("past its limit", Place::File, 3, "too long", 4, 0),
    ("missing", Place::Missing, LIMIT, "failed", 0, 1),
    ("a folder", Place::Folder, LIMIT, "failed", 0, 2),
];

#[test]
fn the_real_desk_loads(rt: HostRuntime) -> Result<(), Fail> {
    let mut desk = StdDesk::new(&rt);
    for &(case, place, limit, answer, len, faults) in LOADS {
        let mut into = Vec::new(rt.alloc());
        let found = load(&rt, &mut desk, place, limit, &mut into)?;
        is_text_in(&rt, case, found, answer);
        is_front_in(&rt, case, &into, len);
        are_faults_in(&rt, case, desk.faults(), (faults, 0, 0));
    }
    Ok(())
}

// Loads from a place while the file is there.
fn load(
    rt: &HostRuntime,
    desk: &mut StdDesk<'_, HostRuntime>,
    place: Place,
    limit: u64,
    into: &mut Vec<u8>,
) -> Result<&'static str, Fail>
    requires { into.old.items ≡ [] }
{
    let file = path_of(rt, Place::File)?;
    let name = path_of(rt, place)?;
    write_long(rt, file.as_str())?;
    let answer = told(desk.load(name.as_str(), limit, into));
    fs::remove_file(rt, file.as_str())?;
    Ok(answer)
}

fn path_of(rt: &HostRuntime, place: Place) -> Result<String, Fail> {
    let folder = env::temp_dir(rt)?.into_string();
    let id = process::id(rt.process());
    Ok(match place {
        Place::File => format!(in rt.alloc(); "{folder}/bx_desk_{id}")?,
        Place::Missing => format!(in rt.alloc(); "{folder}/bx_desk_{id}_missing")?,
        Place::Folder => folder,
    })
}

fn write_long(rt: &HostRuntime, file: &str) -> Result<(), Fail> {
    let bytes = vec![in rt.alloc(); b'x'; LONG]?;
    fs::write(rt, file, bytes.as_slice())?;
    Ok(())
}

// So many of the file's bytes were loaded.
fn is_front_in(rt: &impl Abort, case: &str, found: &[u8], len: usize) {
    is_so_in(rt, case, found.len() == len, true);
    is_so_in(rt, case, found.iter().all(|byte| *byte == b'x'), true);
}

#[test]
fn the_real_desk_says(rt: HostRuntime) {
    let mut desk = StdDesk::new(&rt);
    is_so(&rt, desk.say(b"said by a test\n").is_ok(), true);
    are_faults_in(&rt, "said", desk.faults(), (0, 0, 0));
}

#[test]
fn a_new_desk_has_started_no_file(rt: HostRuntime) {
    is_so(&rt, StdDesk::new(&rt).has_started(), false);
}

#[test]
fn a_file_that_is_started_is_empty(rt: HostRuntime) -> Result<(), Fail> {
    let file = new_file(&rt, "started")?;
    let mut desk = StdDesk::new(&rt);
    is_so(&rt, desk.start(file.as_str()).is_ok(), true);
    is_content(&rt, file.as_str(), b"")?;
    Ok(fs::remove_file(&rt, file.as_str())?)
}

#[test]
fn what_is_appended_is_written(rt: HostRuntime) -> Result<(), Fail> {
    let file = new_file(&rt, "appended")?;
    append_pieces(&rt, rt.alloc(), &mut StdDesk::new(&rt), file.as_str())?;
    are_pieces(&rt, rt.alloc(), file.as_str())?;
    Ok(fs::remove_file(&rt, file.as_str())?)
}

// What is appended behind the first piece.
const PIECES: &[&[u8]] = &[b"", b", two"];

// Writes the pieces, and bytes that take several writes.
fn append_pieces(
    rt: &impl Abort,
    alloc: Global,
    desk: &mut StdDesk<'_, HostRuntime>,
    file: &str,
) -> Result<(), Fail> {
    write(rt, desk, file, b"one", true);
    for piece in PIECES {
        is_so(rt, appends(rt, desk, *piece), true);
    }
    let long = vec![in alloc; b'x'; LONG]?;
    is_so(rt, appends(rt, desk, &long), true);
    Ok(())
}

// The pieces stand there in order, and the long one behind them.
fn are_pieces<R: Files + AllocGlobal + Abort>(
    rt: &R,
    alloc: Global,
    file: &str,
) -> Result<(), Fail> {
    let mut wanted = b"one, two".to_vec(alloc)?;
    wanted.resize(8 + LONG, b'x')?;
    is_content(rt, file, &wanted)
}

#[test]
fn a_file_that_is_started_again_is_written_anew(rt: HostRuntime) -> Result<(), Fail> {
    let file = new_file(&rt, "again")?;
    let mut desk = StdDesk::new(&rt);
    write(&rt, &mut desk, file.as_str(), b"one, two", true);
    write(&rt, &mut desk, file.as_str(), b"new", true);
    are_faults_in(&rt, "again", desk.faults(), (0, 0, 0));
    is_content(&rt, file.as_str(), b"new")?;
    Ok(fs::remove_file(&rt, file.as_str())?)
}

// A folder in the place of a file: no file is started, and the one before stays as it is.
#[test]
fn a_folder_is_not_started(rt: HostRuntime) -> Result<(), Fail> {
    let file = new_file(&rt, "before")?;
    let mut desk = StdDesk::new(&rt);
    write(&rt, &mut desk, file.as_str(), b"new", true);
    fail_to_start(&rt, &mut desk, "/");
    are_faults_in(&rt, "a folder", desk.faults(), (0, 1, 0));
    is_content(&rt, file.as_str(), b"new")?;
    Ok(fs::remove_file(&rt, file.as_str())?)
}

// A device that takes no bytes, where the system has one.
#[test]
fn a_full_device_takes_nothing(rt: HostRuntime) -> Result<(), Fail> {
    if !fs::exists(&rt, "/dev/full")? {
        return Ok(());
    }
    let mut desk = StdDesk::new(&rt);
    fail_to_start(&rt, &mut desk, "/");
    write(&rt, &mut desk, "/dev/full", b"lost", false);
    is_so(&rt, desk.has_started(), true);
    are_faults_in(&rt, "full", desk.faults(), (0, 2, 0));
    Ok(())
}

fn fail_to_start(rt: &impl Abort, desk: &mut StdDesk<'_, HostRuntime>, name: &str) {
    is_so_in(rt, name, desk.start(name).is_ok(), false);
    is_so_in(rt, name, desk.has_started(), false);
}

// Starts a file, which succeeds, and appends a piece, which succeeds or not.
fn write(
    rt: &impl Abort,
    desk: &mut StdDesk<'_, HostRuntime>,
    file: &str,
    piece: &[u8],
    wanted: bool,
) {
    is_so_in(rt, file, desk.start(file).is_ok(), true);
    is_so_in(rt, file, appends(rt, desk, piece), wanted);
}

// Whether all of a piece is written to the started file.
fn appends(rt: &impl Abort, desk: &mut StdDesk<'_, HostRuntime>, piece: &[u8]) -> bool {
    assert!(rt; desk.has_started());
    desk.append(piece).is_ok()
}

fn is_content<R: Files + AllocGlobal + Abort>(
    rt: &R,
    file: &str,
    wanted: &[u8],
) -> Result<(), Fail> {
    let found = fs::read(rt, file)?;
    is_bytes(rt, &found, wanted);
    Ok(())
}

// A name for a file of a test.
fn new_file(rt: &HostRuntime, test: &str) -> Result<String, Fail> {
    let folder = env::temp_dir(rt)?.into_string();
    let id = process::id(rt.process());
    Ok(format!(in rt.alloc(); "{folder}/bx_desk_{id}_{test}")?)
}
