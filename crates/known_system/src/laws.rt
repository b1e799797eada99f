//! Laws of a known system. Each function does nothing; calling it gives its clause.
ghost use Rattle.std.specs.Prelude.{◌≡◌, ℕ, List, Some, Result};
ghost use Rattle.known_system.specs.Prelude.{Contents, Course, Folder, Holds, Leaves, Left, Links, Place, RunView, SystemView, Writes, WritesFile, calls_of, fault_of, folder, replay};
ghost use Rattle.runs.specs.declared.program_fault.ProgramFault.{ProgramFault};

/// The calls by which an output is made leave all of it where its path leads, or the file that was
/// there.
pub fn output_is_whole_or_as_it_was()
    ensures { (output path : List ℕ) (limit : ℕ) (course : Course) (links : Links) (held fresh : Place)
        (new : Folder) → WritesFile output limit path course
        → replay (calls_of course) (folder links held fresh) ≡ Some new
        → Left output limit path links held new (fault_of course) }
{}

/// A run that is written leaves its output and its messages where they belong. One that isn't
/// leaves everything as it was.
pub fn run_leaves_all_or_nothing()
    ensures { (run : RunView) (argument : List ℕ) (before after : SystemView) (old new : Contents)
        (result : Result ℕ ProgramFault) → Holds before old → Holds after new
        → Writes run argument before after result → Leaves run argument old new result }
{}

/// Where a system is as it was, so is what it holds.
pub fn same_system_holds_the_same()
    ensures { (before after : SystemView) (old new : Contents) → Holds before old → Holds after new
        → after ≡ before → new ≡ old }
{}
