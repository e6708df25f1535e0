//! What follows from the definitions. The functions do nothing: a call brings its law.
ghost use Rattle.std.specs.Prelude.{◌≡◌, ℕ, List, Option, Ok, Result};
ghost use Rattle.corr_model.specs.Files.{Files};
ghost use Rattle.job_plan.specs.declared.plan.Plan.{Plan};
ghost use Rattle.run_notes.specs.Answers.{Answer};
ghost use Rattle.run_ready.specs.Outcome.{Wrong, PlanUnder};

/// A job comes to one plan, or to one answer, and never to two.
pub fn one_outcome()
    ensures { (files : Files) (wrong : Wrong) (job : List ℕ) (vex : Option (List ℕ)) (epoch : Option ℕ) (a b : Result Plan Answer)
        → PlanUnder files wrong job vex epoch a → PlanUnder files wrong job vex epoch b → a ≡ b }
{
    vex_reader::laws::one_file();
    vex_reader::laws::one_fault();
    vex_reader::laws::not_both();
}

/// The plan of a job does not depend on the length of an epoch that is asked for, nor on what is looked at of its recordings.
pub fn one_plan_for_job()
    ensures { (files : Files) (wrong other : Wrong) (job : List ℕ) (vex : Option (List ℕ)) (epoch length : Option ℕ) (a b : Plan)
        → PlanUnder files wrong job vex epoch (Ok a) → PlanUnder files other job vex length (Ok b) → a ≡ b }
{
    vex_reader::laws::one_file();
}
