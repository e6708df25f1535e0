//! What follows from the reading of record files for every text. The functions do nothing: a call brings its law.
ghost use Rattle.std.specs.Prelude.{ℕ, List};
ghost use Rattle.vis_records.specs.Laws.{ReadsWhatIsWritten, ReadsBack, HasOneContent};

/// A text that is read is the record file with the content that is read, and a record file is read to its content.
pub fn reads_what_is_written()
    ensures written { (text : List ℕ) → ReadsWhatIsWritten text }
    ensures back { (text : List ℕ) → ReadsBack text }
{}

/// A text is the record file of at most one content.
pub fn one_content()
    ensures { (text : List ℕ) → HasOneContent text }
{}
