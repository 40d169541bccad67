//! A desk for a run of which the status alone is wanted: it holds texts by name, never fails, and drops what is
//! written and said. So over it no status blames the desk, and what is left of a run is a function of the words and
//! of these texts, or want of memory.
ghost use Rattle.std.specs.Prelude.{◌≡◌, ◌+◌, ◌≤◌, [], true, false, vec_len, IsOk, IsSome, IsErrOf, OnOk};

use crate::held::copy_within;
use crate::{Desk, Failed, LoadFault};
use bx_logic::Name;

/// Texts by name, and nowhere to keep anything. A name under which none is held stands for the empty text.
#[derive(Drop)]
pub struct QuietDesk {
    held: Vec<(Name, Vec<u8>)>,
    started: bool,
}

impl QuietDesk {
    ghost use Rattle.bx_desk.specs.Quiet.{text_under, text_of};

    /// A desk that holds these texts; of several under one name the first counts. No file is started. Takes no
    /// memory.
    pub fn new(held: Vec<(Name, Vec<u8>)>) -> Self
        ensures texts { text_of result ≡ text_under held.items }
        ensures started { result.started ≡ false }
    {
        QuietDesk {
            held,
            started: false,
        }
    }

    // The text of this name.
    fn text(&self, name: &str) -> &[u8]
        ensures { result.now ≡ text_of self.now name.now }
    {
        for (held, text) in &self.held {
            if held.as_slice() == name.as_bytes() {
                return text;
            }
        }
        &[]
    }
}

impl Desk for QuietDesk {
    ghost use Rattle.bx_desk.specs.Quiet.{quiet_state, state_of, text_of};

    ghost state = { λ d. state_of d };

    fn load(&mut self, name: &str, limit: u64, into: &mut Vec<u8>) -> Result<(), LoadFault>
        requires { into.old.items ≡ [] }
        ensures within { OnOk result (vec_len into.new ≤ limit) }
        ensures text { OnOk result (into.new.items ≡ text_of self.old name.now) }
        ensures never_fails { IsErrOf result LoadFault.Failed → ⊥ }
        ensures too_long { IsErrOf result LoadFault.TooLong → vec_len into.new ≡ limit + 1 }
        ensures no_memory_empty { IsErrOf result LoadFault.NoMemory → into.new.items ≡ [] }
        ensures stays { self.new ≡ self.old }
    {
        copy_within(self.text(name), limit, into)
    }

    fn start(&mut self, _name: &str) -> Result<(), Failed>
        ensures never_fails { IsOk result }
        ensures after { state_of self.new ≡ quiet_state true }
        ensures texts { text_of self.new ≡ text_of self.old }
    {
        self.started = true;
        Ok(())
    }

    fn has_started(&self) -> bool {
        self.started
    }

    fn append(&mut self, _piece: &[u8]) -> Result<(), Failed>
        requires { IsSome (state_of self.old).started }
        ensures never_fails { IsOk result }
        ensures stays { self.new ≡ self.old }
    {
        Ok(())
    }

    fn say(&mut self, _piece: &[u8]) -> Result<(), Failed>
        ensures never_fails { IsOk result }
        ensures stays { self.new ≡ self.old }
    {
        Ok(())
    }
}
