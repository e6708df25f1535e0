//! What follows from the definitions. The functions do nothing: a call brings its law.
ghost use Rattle.std.specs.Prelude.{◌≡◌, ℕ, List, Option, Ok, Result};
ghost use Rattle.std.specs.List.{All};
ghost use Rattle.corr_model.specs.Files.{Files};
ghost use Rattle.job_plan.specs.Output.{output};
ghost use Rattle.shard_merge.specs.Honest.{AreHonest};
ghost use Rattle.run_notes.specs.Answers.{Answer};
ghost use Rattle.run_merge.specs.Outcome.{Merge, MergeOf, merged_text};

/// A job and the journals of its parts come to one plan with the epochs that each keeps, or to one answer, and never to two.
pub fn one_merge()
    ensures { (files : Files) (job : List ℕ) (vex : Option (List ℕ)) (names : List (List ℕ)) (a b : Result Merge Answer)
        → MergeOf files job vex names a → MergeOf files job vex names b → a ≡ b }
{
    run_ready::laws::one_outcome();
}

/// Where each epoch that the journals keep has the text of its direct sums, what they make is the record file of the job.
pub fn honest_merge()
    ensures { (files : Files) (job : List ℕ) (vex : Option (List ℕ)) (names : List (List ℕ)) (x : Merge)
        → MergeOf files job vex names (Ok x) → All (AreHonest x.plan files) x.keeps → merged_text x ≡ output x.plan files }
{
    shard_merge::laws::kept_epochs_fit();
    shard_merge::laws::honest_shards_make_the_output();
}
