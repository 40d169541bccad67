//! What a desk that tells its files shows of files that were written. Nothing here runs.
ghost use Rattle.std.specs.Prelude.{◌≡◌, ◌≢◌, Bool, Some};
ghost use Rattle.bx_desk.specs.Desk.{DeskState, Files};
ghost use Rattle.bx_desk.specs.Quiet.{quiet_state};
ghost use Rattle.bx_verilog.specs.Formulas.{Text};
ghost use Rattle.bx_engine.specs.Answers.{Written};
ghost use Rattle.bx_engine.specs.Effects.{WritesFile, FailsToWrite, NoneRose, file_at};

/// A file that was written has its text; every other file, what was said and the counts of failures stay.
pub fn what_is_written_is_there()
    ensures there { (old new : DeskState) (file : Written) (files : Files)
        → WritesFile old new file → old.files ≡ Some files
        → file_at new.files file.name ≡ Some file.text }
    ensures others { (old new : DeskState) (file : Written) (name : Text) → WritesFile old new file
        → file.name ≢ name → file_at new.files name ≡ file_at old.files name }
    ensures said { (old new : DeskState) (file : Written) → WritesFile old new file
        → new.said ≡ old.said }
    ensures faults { (old new : DeskState) (file : Written) → WritesFile old new file
        → new.faults ≡ old.faults }
{}

/// Where a file couldn't be written, every other file and what was said stay.
pub fn what_is_not_written_stays()
    ensures others { (old new : DeskState) (file : Written) (name : Text)
        → FailsToWrite old new file → file.name ≢ name
        → file_at new.files name ≡ file_at old.files name }
    ensures said { (old new : DeskState) (file : Written) → FailsToWrite old new file
        → new.said ≡ old.said }
{}

/// Over a desk that never fails no call raises a count, so no status can blame it: its run is settled, or memory was
/// refused.
pub fn a_quiet_desk_is_never_blamed()
    ensures { (before now : Bool)
        → NoneRose (quiet_state before).faults (quiet_state now).faults }
{}
