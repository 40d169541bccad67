//! Files in memory, of which one may be started, and places for files to come. A place is kept for the
//! next file of its name that is started, so that starting a file and adding to it take no memory.
//! Which call fails is left to the desk that has the shelf.
ghost use Rattle.std.specs.Prelude.{◌≡◌, ◌+◌, ◌-◌, ◌<◌, ◌≤◌, ◌++◌, [], ℕ, List, length, vec_len, vec_capacity, OnOk, OnErr, Some, None, Option, option_map, option_and_then, is_some, IsTrue, IfOk, IfSome, false};
ghost use Rattle.std.specs.Option.{ForSome};
ghost use Rattle.bx_desk.specs.Slots.{with_slot, file_slot, place_slot, started_slot, file_bytes, empty_slot, room_left, with_added};

use bx_logic::NoMemory;
use std::alloc::Global;

/// Files by name, and places.
#[derive(Drop)]
pub struct Shelf {
    alloc: Global,
    slots: Vec<Slot>,
    started: Option<usize>,
    ghost in_range: { ForSome started (λ at. at < vec_len slots) },
}

impl Shelf {
    ghost use Rattle.bx_desk.specs.Shelves.{slots_of, started_of, index_from};

    /// No file and no place.
    pub fn new(alloc: Global) -> Self
        ensures slots { (name : List ℕ) → slots_of result name ≡ empty_slot }
        ensures started { started_of result ≡ None }
    {
        Shelf {
            alloc,
            slots: Vec::new(alloc),
            started: None,
        }
    }

    /// The file of this name.
    pub fn file(&self, name: &str) -> Option<&[u8]>
        ensures { option_map (λ file. file.now) result ≡ file_bytes (slots_of self.now name.now) }
    {
        let at = self.find(name)?;
        let space = self.slots[at].file.as_ref()?;
        Some(space.bytes())
    }

    /// Holds a copy of the bytes as the file of this name, with no room for more.
    pub fn put(&mut self, name: &str, bytes: &[u8]) -> Result<(), NoMemory>
        ensures ok { OnOk result
            (slots_of self.new ≡ with_slot name.now (file_slot bytes.now) (slots_of self.old)) }
        ensures err { OnErr result (slots_of self.new ≡ slots_of self.old) }
        ensures started { started_of self.new ≡ started_of self.old }
    {
        let file = Space::of(bytes.to_vec(self.alloc)?);
        let at = self.slot(name)?;
        self.slots[at].file = Some(file);
        Ok(())
    }

    /// Keeps a place of this size for the next file of this name that is started.
    pub fn keep_place(&mut self, name: &str, size: u64) -> Result<(), NoMemory>
        ensures ok { OnOk result
            (slots_of self.new ≡ with_slot name.now (place_slot size) (slots_of self.old)) }
        ensures err { OnErr result (slots_of self.new ≡ slots_of self.old) }
        ensures started { started_of self.new ≡ started_of self.old }
    {
        let mut space = Space::new(self.alloc);
        space.make_room(size)?;
        let at = self.slot(name)?;
        self.slots[at].place = Some(space);
        Ok(())
    }

    /// Whether a file is started.
    pub fn has_started(&self) -> bool
        ensures { result ≡ is_some (started_of self.now) }
    {
        self.started.is_some()
    }

    /// From now on no file is started.
    pub fn stop(&mut self)
        ensures slots { slots_of self.new ≡ slots_of self.old }
        ensures started { started_of self.new ≡ None }
    {
        self.started = None;
    }

    /// Starts a file of this name in the place that is kept for it. Without a place nothing changes.
    pub fn start(&mut self, name: &str) -> bool
        ensures answer { result ≡ is_some (slots_of self.old name.now).place }
        ensures slots { IsTrue result
            → slots_of self.new ≡ with_slot name.now started_slot (slots_of self.old) }
        ensures started { IsTrue result → started_of self.new ≡ Some name.now }
        ensures stays { result ≡ false → (slots_of self.new ≡ slots_of self.old)
            × (started_of self.new ≡ started_of self.old) }
    {
        let Some(at) = self.find(name) else {
            return false;
        };
        let slot = &mut self.slots[at];
        let Some(mut space) = slot.place.take() else {
            return false;
        };
        space.clear();
        slot.file = Some(space);
        self.started = Some(at);
        true
    }

    /// How many more bytes the started file takes.
    pub fn room(&self) -> u64
        ensures { result ≡ room_left (slots_of self.now) (started_of self.now) }
    {
        let Some(at) = self.started_at() else {
            return 0;
        };
        match &self.slots[at].file {
            Some(file) => file.room(),
            None => 0,
        }
    }

    /// Adds bytes to the started file, for which it has room.
    pub fn add(&mut self, bytes: &[u8])
        requires { length bytes.now ≤ room_left (slots_of self.old) (started_of self.old) }
        ensures slots { slots_of self.new
            ≡ with_added (started_of self.old) bytes.now (slots_of self.old) }
        ensures started { started_of self.new ≡ started_of self.old }
    {
        let Some(at) = self.started_at() else {
            return;
        };
        if let Some(file) = &mut self.slots[at].file {
            file.add(bytes);
        }
    }

    // The slot of this name, which is made where there is none.
    fn slot(&mut self, name: &str) -> Result<usize, NoMemory>
        ensures found { IfOk result (λ at. index_from 0 name.now self.new.slots.items ≡ Some at) }
        ensures in_range { IfOk result (λ at. at < vec_len self.new.slots) }
        ensures slots { slots_of self.new ≡ slots_of self.old }
        ensures started { started_of self.new ≡ started_of self.old }
    {
        if let Some(at) = self.find(name) {
            return Ok(at);
        }
        let slot = Slot {
            name: String::from_str(self.alloc, name)?,
            file: None,
            place: None,
        };
        let at = self.slots.len();
        self.slots.push(slot)?;
        Ok(at)
    }

    // The slot of the started file: the first of its name.
    fn started_at(&self) -> Option<usize>
        ensures in_range { IfSome result (λ at. at < vec_len self.now.slots) }
        ensures found { result
            ≡ option_and_then (λ name. index_from 0 name self.now.slots.items) (started_of self.now) }
    {
        let at = self.started?;
        self.find(self.slots[at].name.as_str())
    }

    // The first slot of this name.
    fn find(&self, name: &str) -> Option<usize>
        ensures in_range { IfSome result (λ at. at < vec_len self.now.slots) }
        ensures found { result ≡ index_from 0 name.now self.now.slots.items }
    {
        for (at, slot) in self.slots.iter().enumerate() {
            if slot.name.as_str() == name {
                return Some(at);
            }
        }
        None
    }
}

// What a name has: a file, and a place for the next one that is started.
#[derive(Drop)]
struct Slot {
    name: String,
    file: Option<Space>,
    place: Option<Space>,
}

/// Bytes, and room for more that takes no memory.
#[derive(Drop)]
pub struct Space {
    bytes: Vec<u8>,
    room: u64,
    ghost has_room: { vec_len bytes + room ≤ vec_capacity bytes },
}

impl Space {
    /// No bytes and no room.
    pub fn new(alloc: Global) -> Self
        ensures bytes { result.bytes.items ≡ [] }
        ensures room { result.room ≡ 0 }
    {
        Space {
            bytes: Vec::new(alloc),
            room: 0,
        }
    }

    // These bytes and no room.
    fn of(bytes: Vec<u8>) -> Self
        ensures bytes { result.bytes.items ≡ bytes.items }
        ensures room { result.room ≡ 0 }
    {
        Space { bytes, room: 0 }
    }

    pub fn bytes(&self) -> &[u8]
        ensures { result.now ≡ self.now.bytes.items }
    {
        &self.bytes
    }

    pub fn room(&self) -> u64
        ensures { result ≡ self.now.room }
    {
        self.room
    }

    /// Makes room for so many more bytes. `NoMemory` also where the room would pass `u64::MAX`.
    pub fn make_room(&mut self, bytes: u64) -> Result<(), NoMemory>
        ensures bytes { self.new.bytes.items ≡ self.old.bytes.items }
        ensures ok { OnOk result (self.new.room ≡ self.old.room + bytes) }
        ensures err { OnErr result (self.new.room ≡ self.old.room) }
    {
        let room = self.room.checked_add(bytes).ok_or(NoMemory)?;
        self.bytes.reserve(room as usize)?;
        self.room = room;
        Ok(())
    }

    // Drops the bytes. The room stays.
    fn clear(&mut self)
        ensures bytes { self.new.bytes.items ≡ [] }
        ensures room { self.new.room ≡ self.old.room }
    {
        self.bytes.clear();
    }

    /// Adds bytes for which there is room.
    pub fn add(&mut self, bytes: &[u8])
        requires { length bytes.now ≤ self.old.room }
        ensures bytes { self.new.bytes.items ≡ self.old.bytes.items ++ bytes.now }
        ensures room { self.new.room ≡ self.old.room - length bytes.now }
    {
        self.room -= bytes.len() as u64;
        self.bytes.extend_from_slice(bytes).unwrap();
    }
}
