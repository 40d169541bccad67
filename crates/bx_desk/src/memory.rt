//! A desk in memory, for tests and worked examples; no program that is shipped has one. It tells its files
//! and what was said. It fails just where it was told to, where no file has the name, where a started name
//! has no place, and where the room is too small. The memory for what is written and said is taken
//! beforehand, so that writing and saying take none. Its files are kept on a shelf, in the module of that
//! name.
ghost use Rattle.std.specs.Prelude.{◌≡◌, ◌+◌, ◌≤◌, ◌↔◌, ◌++◌, [], ◌∷◌, ℕ, List, length, vec_len, IsSome, OnOk, OnErr, IsErr, IsErrOf, IsTrue, Some, None, Option, option_map, is_some, nat_lt, ◌||◌, if◌then◌else◌};
ghost use Rattle.bx_desk.specs.Shelves.{slots_of};
ghost use Rattle.bx_desk.specs.Plans.{kept_at, kept_of};
ghost use Rattle.bx_desk.specs.Slots.{with_slot, file_slot, place_slot, file_bytes, empty_slot};
ghost use Rattle.bx_desk.specs.Desk.{IsFile, BeginsFile, IsLoadAnswer, FailsToLoad, Starts, FailsToStart, Writes, WritesFront, Says, SaysFront};

mod shelf;

use self::shelf::{Shelf, Space};
use crate::held::copy_within;
use crate::{Desk, Failed, LoadFault};
use bx_logic::NoMemory;
use std::alloc::Global;

/// Files and said bytes in memory. Calls of `load`, `start`, `append` and `say` are numbered from 1.
#[derive(Drop)]
pub struct MemDesk {
    alloc: Global,
    shelf: Shelf,
    said: Space,
    fails: Vec<(u64, u64)>,
    calls: u64,
    pub(crate) load_faults: u64,
    pub(crate) write_faults: u64,
    pub(crate) say_faults: u64,
}

impl MemDesk {
    ghost use Rattle.bx_desk.specs.Memory.{state_of, next_kept, after_put, after_make_room, after_fail_at, after_say_room};
    ghost use Rattle.bx_desk.specs.Memory.{after_call, after_load_fault, after_write_fault, after_start_fault, after_say_fault};

    /// A desk with no file, nothing said, no call that is to fail, and no place and room. Takes no memory.
    pub fn new(alloc: Global) -> Self
        ensures slots { (name : List ℕ) → (state_of result).slots name ≡ empty_slot }
        ensures started { (state_of result).started ≡ None }
        ensures said { (state_of result).said ≡ [] }
        ensures room { (state_of result).room ≡ 0 }
        ensures fails { (state_of result).fails ≡ [] }
        ensures calls { (state_of result).calls ≡ 0 }
        ensures faults { (state_of result).faults ≡ record { load = 0; write = 0; say = 0 } }
    {
        MemDesk {
            alloc,
            shelf: Shelf::new(alloc),
            said: Space::new(alloc),
            fails: Vec::new(alloc),
            calls: 0,
            load_faults: 0,
            write_faults: 0,
            say_faults: 0,
        }
    }

    /// Holds a copy of the bytes as the file of this name, in place of one that was there. It has no
    /// room for more bytes.
    ///
    /// # Errors
    ///
    /// `NoMemory` where memory was refused: then nothing has changed.
    pub fn put(&mut self, name: &str, bytes: &[u8]) -> Result<(), NoMemory>
        ensures ok { OnOk result
            (state_of self.new ≡ after_put (state_of self.old) name.now bytes.now) }
        ensures err { OnErr result (state_of self.new ≡ state_of self.old) }
    {
        self.shelf.put(name, bytes)
    }

    /// Keeps a place of so many bytes for the next `start` of the name, which uses it up. It replaces a
    /// place that the name has, and makes no file.
    ///
    /// # Errors
    ///
    /// `NoMemory` where memory was refused: then nothing has changed.
    pub fn make_room(&mut self, name: &str, bytes: u64) -> Result<(), NoMemory>
        ensures ok { OnOk result
            (state_of self.new ≡ after_make_room (state_of self.old) name.now bytes) }
        ensures err { OnErr result (state_of self.new ≡ state_of self.old) }
    {
        self.shelf.keep_place(name, bytes)
    }

    /// Plans that the call of this number fails. A call of `append` or `say` that fails so keeps the
    /// first `kept` bytes of its piece, as far as the room goes. Of several plans for one number the
    /// first counts.
    ///
    /// # Errors
    ///
    /// `NoMemory` where memory was refused: then nothing has changed.
    pub fn fail_at(&mut self, call: u64, kept: u64) -> Result<(), NoMemory>
        ensures ok { OnOk result (state_of self.new ≡ after_fail_at (state_of self.old) call kept) }
        ensures err { OnErr result (state_of self.new ≡ state_of self.old) }
    {
        self.fails.push((call, kept))?;
        Ok(())
    }

    /// The bytes of a file; `None` exactly where no file has this name.
    pub fn file(&self, name: &str) -> Option<&[u8]>
        ensures { option_map (λ file. file.now) result
            ≡ file_bytes ((state_of self.now).slots name.now) }
    {
        self.shelf.file(name)
    }

    /// The bytes said so far.
    pub fn said(&self) -> &[u8]
        ensures { result.now ≡ (state_of self.now).said }
    {
        self.said.bytes()
    }

    /// Makes room for so many more bytes to be said.
    ///
    /// # Errors
    ///
    /// `NoMemory` where memory was refused, or where the room would pass `u64::MAX`: then nothing
    /// has changed.
    pub fn say_room(&mut self, bytes: u64) -> Result<(), NoMemory>
        ensures ok { OnOk result (state_of self.new ≡ after_say_room (state_of self.old) bytes) }
        ensures err { OnErr result (state_of self.new ≡ state_of self.old) }
    {
        self.said.make_room(bytes)
    }

    // Counts a call, and tells how much it keeps where it is to fail.
    fn next_call(&mut self) -> Option<u64>
        ensures kept { result ≡ next_kept (state_of self.old) }
        ensures calls { state_of self.new ≡ after_call (state_of self.old) }
    {
        self.calls = self.calls.saturating_add(1);
        planned(&self.fails, self.calls)
    }

    // A load failed: its count rises.
    fn fault_load(&mut self)
        ensures faults { state_of self.new ≡ after_load_fault (state_of self.old) }
        ensures no_fall { (state_of self.old).faults.load ≤ (state_of self.new).faults.load }
    {
        self.load_faults = self.load_faults.saturating_add(1);
    }

    // A call of start or append failed: their count rises.
    fn fault_write(&mut self)
        ensures faults { state_of self.new ≡ after_write_fault (state_of self.old) }
        ensures no_fall { (state_of self.old).faults.write ≤ (state_of self.new).faults.write }
    {
        self.write_faults = self.write_faults.saturating_add(1);
    }

    // A start failed: no file is started.
    fn fail_start(&mut self)
        ensures after { state_of self.new ≡ after_start_fault (state_of self.old) }
        ensures no_fall { (state_of self.old).faults.write ≤ (state_of self.new).faults.write }
    {
        self.shelf.stop();
        self.fault_write();
    }

    // A call of say failed: its count rises.
    fn fault_say(&mut self)
        ensures faults { state_of self.new ≡ after_say_fault (state_of self.old) }
        ensures no_fall { (state_of self.old).faults.say ≤ (state_of self.new).faults.say }
    {
        self.say_faults = self.say_faults.saturating_add(1);
    }
}

impl Desk for MemDesk {
    ghost use Rattle.bx_desk.specs.Memory.{state_of, view_of, cannot_load, cannot_start, cannot_append, cannot_say, after_load, after_start, after_append, after_say};

    ghost state = { λ d. view_of d };

    fn load(&mut self, name: &str, limit: u64, into: &mut Vec<u8>) -> Result<(), LoadFault>
        requires { into.old.items ≡ [] }

        ensures whole { OnOk result (IsFile (view_of self.old).files name.now into.new.items) }
        ensures within { OnOk result (vec_len into.new ≤ limit) }

        // `TooLong`: the file begins with what the vector has, which is a byte past the limit.
        ensures too_long { IsErrOf result LoadFault.TooLong → vec_len into.new ≡ limit + 1 }
        ensures too_long_front { IsErrOf result LoadFault.TooLong
            → BeginsFile (view_of self.old).files name.now into.new.items }

        // The answer follows from the file, unless memory was refused or the desk failed.
        ensures answer { IsLoadAnswer (view_of self.old) (view_of self.new) name.now limit result }

        ensures failed_empty { IsErrOf result LoadFault.Failed → into.new.items ≡ [] }
        ensures no_memory_empty { IsErrOf result LoadFault.NoMemory → into.new.items ≡ [] }

        // Only `Failed` changes the desk, and then the count of failed loads alone.
        ensures failed { IsErrOf result LoadFault.Failed
            → FailsToLoad (view_of self.old) (view_of self.new) }
        ensures ok_stays { OnOk result (view_of self.new ≡ view_of self.old) }
        ensures too_long_stays { IsErrOf result LoadFault.TooLong
            → view_of self.new ≡ view_of self.old }
        ensures no_memory_stays { IsErrOf result LoadFault.NoMemory
            → view_of self.new ≡ view_of self.old }
        // It fails just where it was told to, and where there is no such file.
        ensures fails_exactly { IsErrOf result LoadFault.Failed
            ↔ IsTrue (cannot_load (state_of self.old) name.now) }
        ensures after { state_of self.new ≡ after_load (state_of self.old) name.now }
    {
        let plan = self.next_call();
        match readable(&self.shelf, plan, name) {
            Some(file) => copy_within(file, limit, into),
            None => {
                self.fault_load();
                Err(LoadFault::Failed)
            }
        }
    }

    fn start(&mut self, name: &str) -> Result<(), Failed>
        ensures ok { OnOk result (Starts (view_of self.old) (view_of self.new) name.now) }
        ensures err { OnErr result (FailsToStart (view_of self.old) (view_of self.new) name.now) }
        // It fails just where it was told to, and where the name has no place.
        ensures fails_exactly { IsErr result ↔ IsTrue (cannot_start (state_of self.old) name.now) }
        ensures after { state_of self.new ≡ after_start (state_of self.old) name.now }
    {
        if self.next_call().is_some() {
            self.fail_start();
            return Err(Failed);
        }
        if !self.shelf.start(name) {
            self.fail_start();
            return Err(Failed);
        }
        Ok(())
    }

    fn has_started(&self) -> bool {
        self.shelf.has_started()
    }

    fn append(&mut self, piece: &[u8]) -> Result<(), Failed>
        requires { IsSome (view_of self.old).started }
        ensures ok { OnOk result (Writes (view_of self.old) (view_of self.new) piece.now) }
        ensures err { OnErr result (WritesFront (view_of self.old) (view_of self.new) piece.now) }
        // It fails just where it was told to, and where there is no room for all of the piece.
        ensures fails_exactly { IsErr result
            ↔ IsTrue (cannot_append (state_of self.old) piece.now) }
        ensures after { state_of self.new ≡ after_append (state_of self.old) piece.now }
    {
        let plan = self.next_call();
        let room = self.shelf.room();
        self.shelf.add(kept_front(plan, room, piece));
        if is_refused(plan, room, piece) {
            self.fault_write();
            return Err(Failed);
        }
        Ok(())
    }

    fn say(&mut self, piece: &[u8]) -> Result<(), Failed>
        ensures ok { OnOk result (Says (view_of self.old) (view_of self.new) piece.now) }
        ensures err { OnErr result (SaysFront (view_of self.old) (view_of self.new) piece.now) }
        // It fails just where it was told to, and where there is no room for all of the piece.
        ensures fails_exactly { IsErr result ↔ IsTrue (cannot_say (state_of self.old) piece.now) }
        ensures after { state_of self.new ≡ after_say (state_of self.old) piece.now }
    {
        let plan = self.next_call();
        let room = self.said.room();
        self.said.add(kept_front(plan, room, piece));
        if is_refused(plan, room, piece) {
            self.fault_say();
            return Err(Failed);
        }
        Ok(())
    }
}

// What was planned for the call of this number.
fn planned(plans: &[(u64, u64)], number: u64) -> Option<u64>
    ensures { result ≡ kept_at plans.now number }
{
    for plan in plans {
        if plan.0 == number {
            return Some(plan.1);
        }
    }
    None
}

// The file of this name, but for a call that is to fail.
fn readable<'a>(shelf: &'a Shelf, plan: Option<u64>, name: &str) -> Option<&'a [u8]>
    ensures { option_map (λ file. file.now) result
        ≡ (if is_some plan then None else file_bytes (slots_of shelf.now name.now)) }
{
    if plan.is_some() {
        return None;
    }
    shelf.file(name)
}

// Whether not all of a piece is taken: the call is to fail, or there is no room for it.
fn is_refused(plan: Option<u64>, room: u64, piece: &[u8]) -> bool
    ensures { result ≡ (is_some plan || nat_lt room (length piece.now)) }
{
    plan.is_some() || room < piece.len() as u64
}

// The front of a piece that is kept: all of it where the call isn't to fail and there is room.
fn kept_front(plan: Option<u64>, room: u64, piece: &[u8]) -> &[u8]
    ensures front { result.now ≡ kept_of plan room piece.now }
    ensures fits { length result.now ≤ room }
{
    let size = piece.len() as u64;
    let kept = match plan {
        Some(kept) => kept.min(room).min(size),
        None if room < size => 0,
        None => size,
    };
    &piece[..kept as usize]
}
