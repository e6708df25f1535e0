//! The job of a generated sample, and the law that it comes to a plan. It stands on `sample_gen` for the job's text and the
//! recordings, and on `run_ready` for what a job comes to. The function does nothing: a call brings its law.
#![tactic(auto)]

ghost use Rattle.std.specs.Prelude.{ℕ, ◌≤◌};
ghost use Rattle.sample_job.specs.Sample.{ComesToAPlan};

/// Whatever its seed, the job of a sample of 1 to 60 seconds comes to a plan, and no answer refuses it.
pub fn comes_to_a_plan()
    ensures { (seed seconds : ℕ) → 1 ≤ seconds → seconds ≤ 60 → ComesToAPlan seed seconds }
{
    run_ready::laws::one_outcome();
}
