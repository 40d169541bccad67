//! What a load gives of a file whose bytes are at hand.
ghost use Rattle.std.specs.Prelude.{◌≡◌, []};
ghost use Rattle.bx_desk.specs.Loads.{LoadsFile};

use crate::LoadFault;

/// Copies a file into an empty vector; of one past the limit, only its first limit + 1 bytes.
pub(crate) fn copy_within(file: &[u8], limit: u64, into: &mut Vec<u8>) -> Result<(), LoadFault>
    requires { into.old.items ≡ [] }
    ensures answer { LoadsFile file.now limit result into.new.items }
{
    let fits = file.len() as u64 <= limit;
    let part = if fits {
        file
    } else {
        &file[..limit as usize + 1]
    };
    if into.extend_from_slice(part).is_err() {
        return Err(LoadFault::NoMemory);
    }
    if fits {
        Ok(())
    } else {
        Err(LoadFault::TooLong)
    }
}
