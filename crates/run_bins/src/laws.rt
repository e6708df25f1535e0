//! What follows from the definitions. The function does nothing: a call brings its law.
ghost use Rattle.std.specs.Prelude.{◌≡◌, ℕ, List, Option, Result};
ghost use Rattle.corr_model.specs.Files.{Files};
ghost use Rattle.run_notes.specs.Answers.{Answer};
ghost use Rattle.run_bins.specs.{Texts.{BinPlan}, Outcome.{BinsOf}};

/// A job and a text of phases come to one plan with bins, or to one answer, and never to two.
pub fn one_plan()
    ensures { (files : Files) (job : List ℕ) (vex : Option (List ℕ)) (phase : List ℕ) (a b : Result BinPlan Answer) → BinsOf files job vex phase a → BinsOf files job vex phase b → a ≡ b }
{
    run_ready::laws::one_outcome();
}
