//! What follows from the definitions. The function does nothing: a call brings its law.
ghost use Rattle.std.specs.Prelude.{◌≡◌, ℕ, List, Result};
ghost use Rattle.corr_model.specs.Files.{Files};
ghost use Rattle.run_notes.specs.Answers.{Answer};
ghost use Rattle.vis_records.specs.Content.{Content};
ghost use Rattle.run_dump.specs.Shown.{RecordsOf};

/// The file under a name comes to one content, or to one answer, and never to two.
pub fn one_shown()
    ensures { (files : Files) (name : List ℕ) (a b : Result Content Answer) → RecordsOf files name a → RecordsOf files name b → a ≡ b }
{}
