//! Laws about the definitions alone, each the clause of a function with an empty body. Nothing here
//! runs.
ghost use Rattle.std.specs.Prelude.{◌≡◌, ℕ, ◌-◌, ◌^◌, ◌<◌, ◌≤◌, ◌↔◌, ◌⊎◌, List, option_map};
ghost use Rattle.bx_desk.specs.Desk.{DeskState, Rose, Starts, IsFile, with_file};
ghost use Rattle.bx_desk.specs.Calls.{Call, LeaveAll, written};

/// A count that rose in a call is greater after it, or stands at 18,446,744,073,709,551,615, where its
/// type ends.
pub fn a_count_rises_up_to_the_end_of_its_type()
    ensures { (before now : ℕ) → Rose before now ↔ ((before < now) ⊎ (2 ^ 64 - 1 ≤ now)) }
{}

/// A file was started. After any further calls, of which none starts a file, it is still the started
/// one and holds the pieces that were appended, in order, of a failed `append` the front that it
/// wrote. All other files are as they were.
pub fn a_started_file_holds_its_pieces_in_order()
    ensures { (old mid new : DeskState) (name : List ℕ) (calls : List Call)
        → Starts old mid name → LeaveAll calls mid new
        → (new.files ≡ option_map (with_file name (written calls)) old.files)
        × IsFile new.files name (written calls) × (new.started ≡ mid.started) }
{}
