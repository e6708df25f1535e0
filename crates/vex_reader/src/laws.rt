//! What follows for every text. The functions do nothing: a call brings its law.
ghost use Rattle.std.specs.Prelude.{ℕ, List};
ghost use Rattle.vex_reader.specs.Laws.{HasOneFile, HasOneFault, DoesNotBoth, HasFileOrFault};

/// A text stands for at most one file.
pub fn one_file()
    ensures { (text : List ℕ) → HasOneFile text }
{}

/// A text has at most one fault.
pub fn one_fault()
    ensures { (text : List ℕ) → HasOneFault text }
{}

/// It does not have both.
pub fn not_both()
    ensures { (text : List ℕ) → DoesNotBoth text }
{}

/// It has one of them.
pub fn file_or_fault()
    ensures { (text : List ℕ) → HasFileOrFault text }
{}
