//! What follows for every text of a job. The functions do nothing: a call brings its law.
ghost use Rattle.std.specs.Prelude.{◌≡◌, ◌<◌, ◌≤◌, ℕ, Bool, true, List, Ok, IsSome, length};
ghost use Rattle.job_text.specs.{Job.{JobFields}, Answer.{job_in}};

/// A job that states its scans itself has a rate and a scan.
pub fn own_scans()
    ensures { (text : List ℕ) (job : JobFields) → job_in true text ≡ Ok job → IsSome job.rate × (0 < length job.scans) }
{}

/// A job has no more scans and no more stations than its text has bytes.
pub fn few_parts()
    ensures { (inline : Bool) (text : List ℕ) (job : JobFields) → job_in inline text ≡ Ok job → (length job.scans ≤ length text) × (length job.stations ≤ length text) }
{}
