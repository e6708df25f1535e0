//! What follows for every file. The functions do nothing: a call brings its law.
ghost use Rattle.std.specs.Prelude.{◌≡◌, ◌↔◌, List, Ok};
ghost use Rattle.vex_reader.specs.{declared.file.Statement.{Statement}, declared.file.VexFile.{VexFile}};
ghost use Rattle.scan_list.specs.declared.scan.Scan.{Scan};
ghost use Rattle.vex_schedule.specs.{Schedule.{schedule_of}, Laws.{AreScansOf, LaterValuesDoNotCount}};

/// A file has these scans exactly where they go with those of its block `$SCHED`, one by one.
pub fn scans_by_relation()
    ensures { (file : VexFile) (scans : List Scan) → (schedule_of file ≡ Ok scans) ↔ AreScansOf file scans }
{}

/// What stands in a `station` behind its third value changes nothing.
pub fn later_values_do_not_count()
    ensures { (statement other : Statement) → LaterValuesDoNotCount statement other }
{}
