//! What follows for every file of a schedule.
ghost use Rattle.vex_reader.specs.declared.file.VexFile.{VexFile};
ghost use Rattle.vex_laws.specs.{Stands.{HasPlace}, Causes.{HasCause}, Counting.{IsOfWhatCounts, HaveOneSchedule}};

/// A fault is at 0 where there is no `$SCHED`, and else where a scan, a def or a statement of one begins.
pub fn placed_fault()
    ensures { (file : VexFile) → HasPlace file }
{}

/// What a fault says is wrong is so at its place.
pub fn cause_at_place()
    ensures { (file : VexFile) → HasCause file }
{}

/// A file has the schedule, or the fault, of what counts in it.
pub fn what_counts()
    ensures { (file : VexFile) → IsOfWhatCounts file }
{}

/// What does not count can be taken out or put in, and blocks and defs can stand in any order.
pub fn nothing_else_counts()
    ensures { (file other : VexFile) → HaveOneSchedule file other }
{}
