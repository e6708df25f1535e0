//! What follows from the definitions. The functions do nothing: a call brings its law.
ghost use Rattle.std.specs.Prelude.{◌≡◌, ℕ, List, Option, None, Ok, Result};
ghost use Rattle.corr_model.specs.Files.{Files};
ghost use Rattle.job_plan.specs.declared.plan.Plan.{Plan};
ghost use Rattle.run_notes.specs.Answers.{Answer};
ghost use Rattle.run_ready.specs.Outcome.{JoinOf};
ghost use Rattle.run_part.specs.Outcome.{PartOf};

/// A part of a job comes to one plan, or to one answer, and never to two.
pub fn one_part()
    ensures { (files : Files) (job : List ℕ) (vex : Option (List ℕ)) (epoch : Option ℕ) (to : ℕ) (a b : Result Plan Answer)
        → PartOf files job vex epoch to a → PartOf files job vex epoch to b → a ≡ b }
{
    run_ready::laws::one_outcome();
}

/// The plan that a part of a job comes to is that of the job.
pub fn parts_have_the_plan()
    ensures { (files : Files) (job : List ℕ) (vex : Option (List ℕ)) (epoch : Option ℕ) (to : ℕ) (plan : Plan)
        → PartOf files job vex epoch to (Ok plan) → JoinOf files job vex epoch (Ok plan) }
{}
