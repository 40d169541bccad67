//! A piece gathers what is to be said, or written to the started file, so that a desk is called once
//! for each full buffer and not once for each word. It takes no memory, and it hands its bytes on in
//! the order in which they were put. When the last is put, `end` hands on the rest; without that call
//! it is never handed on. Which file is started is left to the caller.
ghost use Rattle.std.specs.Prelude.{◌≡◌, ◌++◌, ◌+◌, ◌<◌, ◌%◌, [], length, OnOk, OnErr, decimal};
ghost use Rattle.bx_desk.specs.Desk.{DeskState, CanPut, Puts, PutsFront};

use crate::target::Target;
use crate::{Desk, Failed};

// How many bytes a piece holds before it hands them on.
const CAPACITY: usize = 4096;

/// A buffer of 4,096 bytes in front of a desk. After an error it is only to be dropped. One that was
/// made by `to_file` is used only while a file is started.
#[derive(Drop)]
pub struct Piece {
    target: Target,
    buffer: [u8; CAPACITY],
    len: usize,
    ghost room: { len < 4096 },
}

impl Piece {
    ghost use Rattle.bx_desk.specs.Pieces.{pending, target_of, IsToSay, IsToFile, HandsOn};

    /// An empty piece, for bytes that are to be said.
    pub fn to_say() -> Self
        ensures target { IsToSay result }
        ensures empty { pending result ≡ [] }
        ensures can { (desk : DeskState) → CanPut (target_of result) desk }
    {
        Piece {
            target: Target::Output,
            buffer: [0; CAPACITY],
            len: 0,
        }
    }

    /// An empty piece, for bytes that go to the end of the started file.
    pub fn to_file() -> Self
        ensures target { IsToFile result }
        ensures empty { pending result ≡ [] }
    {
        Piece {
            target: Target::File,
            buffer: [0; CAPACITY],
            len: 0,
        }
    }

    /// Puts the bytes behind those put before. Each buffer is handed on as soon as it is full.
    ///
    /// # Errors
    ///
    /// `Failed` where the desk could not take all of a full buffer.
    pub fn put<D: Desk>(&mut self, bytes: &[u8], desk: &mut D) -> Result<(), Failed>
        requires { CanPut (target_of self.old) (D.state desk.old) }
        ensures hands_on { HandsOn result (target_of self.old) (D.state desk.old) (D.state desk.new)
            (pending self.old ++ bytes.now) (pending self.new) }
        ensures whole_buffers { OnOk result
            (length (pending self.new) ≡ (length (pending self.old) + length bytes.now) % 4096) }
        // Without a full buffer the desk isn't called.
        ensures quiet { length (pending self.old) + length bytes.now < 4096 → desk.new ≡ desk.old }
        ensures target_stays { target_of self.new ≡ target_of self.old }
        ensures can { CanPut (target_of self.new) (D.state desk.new) }
    {
        let mut rest = bytes;
        while rest.len() >= CAPACITY - self.len {
            let (now, later) = rest.split_at(CAPACITY - self.len);
            self.buffer[self.len..].copy_from_slice(now);
            hand_on(self.target, &self.buffer, desk)?;
            self.len = 0;
            rest = later;
        }
        let end = self.len + rest.len();
        self.buffer[self.len..end].copy_from_slice(rest);
        self.len = end;
        Ok(())
    }

    /// Puts the digits of a number, without leading zeros.
    ///
    /// # Errors
    ///
    /// Those of `put`.
    pub fn put_number<D: Desk>(&mut self, n: u64, desk: &mut D) -> Result<(), Failed>
        requires { CanPut (target_of self.old) (D.state desk.old) }
        ensures hands_on { HandsOn result (target_of self.old) (D.state desk.old) (D.state desk.new)
            (pending self.old ++ decimal n) (pending self.new) }
        ensures whole_buffers { OnOk result
            (length (pending self.new) ≡ (length (pending self.old) + length (decimal n)) % 4096) }
        ensures quiet { length (pending self.old) + length (decimal n) < 4096
            → desk.new ≡ desk.old }
        ensures target_stays { target_of self.new ≡ target_of self.old }
        ensures can { CanPut (target_of self.new) (D.state desk.new) }
    {
        let mut digits = itoa::Buffer::new();
        self.put(digits.format(n).as_bytes(), desk)
    }

    /// Hands on what is pending, and calls the desk only if something is.
    ///
    /// # Errors
    ///
    /// `Failed` where the desk could not take all of it.
    pub fn end<D: Desk>(&mut self, desk: &mut D) -> Result<(), Failed>
        requires { CanPut (target_of self.old) (D.state desk.old) }
        ensures hands_on { HandsOn result (target_of self.old) (D.state desk.old) (D.state desk.new)
            (pending self.old) [] }
        ensures empty { OnOk result (pending self.new ≡ []) }
        // With nothing pending the desk isn't called.
        ensures quiet { pending self.old ≡ [] → desk.new ≡ desk.old }
        ensures target_stays { target_of self.new ≡ target_of self.old }
        ensures can { CanPut (target_of self.new) (D.state desk.new) }
    {
        if self.len > 0 {
            hand_on(self.target, &self.buffer[..self.len], desk)?;
            self.len = 0;
        }
        Ok(())
    }
}

// Hands bytes on to where they go.
fn hand_on<D: Desk>(target: Target, bytes: &[u8], desk: &mut D) -> Result<(), Failed>
    requires { CanPut target (D.state desk.old) }
    ensures ok { OnOk result (Puts target (D.state desk.old) (D.state desk.new) bytes.now) }
    ensures err { OnErr result (PutsFront target (D.state desk.old) (D.state desk.new) bytes.now) }
    ensures can { CanPut target (D.state desk.new) }
{
    match target {
        Target::Output => desk.say(bytes),
        Target::File => desk.append(bytes),
    }
}
