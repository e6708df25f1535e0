//! What follows from the definitions. The functions do nothing: a call brings its law.
ghost use Rattle.std.specs.Prelude.{◌≡◌, ℕ, List, Result};
ghost use Rattle.corr_model.specs.Files.{Files};
ghost use Rattle.vis_records.specs.Content.{Content};
ghost use Rattle.fringe_search.specs.Certificates.{Line};
ghost use Rattle.run_notes.specs.Answers.{Answer};
ghost use Rattle.run_fringe.specs.Searched.{FringeOf, VerifyOf};

/// A search comes to one certificate, or to one answer, and never to two.
pub fn one_search()
    ensures { (files : Files) (name : List ℕ) (rates divide : ℕ) (a b : Result (List Line) Answer) → FringeOf files name rates divide a → FringeOf files name rates divide b → a ≡ b }
{}

/// A certificate is a right one, or it has one answer, and never two.
pub fn one_verdict()
    ensures { (files : Files) (name certificate : List ℕ) (a b : Result Content Answer) → VerifyOf files name certificate a → VerifyOf files name certificate b → a ≡ b }
{}
