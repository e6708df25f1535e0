//! What follows from the definitions, and from the contract of `run` for calls one after another. The functions do nothing: a call brings
//! its law.
ghost use Rattle.std.specs.Prelude.{◌≡◌, ℕ, List, Result};
ghost use Rattle.corr_model.specs.Files.{Files};
ghost use Rattle.run_notes.specs.Answers.{Answer};
ghost use Rattle.vlbi_core.specs.{Calls.{Task, OutcomeOf}, Histories.{HoldsOver, AlikeByJob}};

use dev_traits::Disk;
use journal_image::laws::reads;
use run_part::laws::parts_have_the_plan;
use run_ready::laws::{one_outcome, one_plan_for_job};

/// Words and files come to one thing, and never to two: a job and its journal, the text that a command appends, or the answer of the first
/// thing that is wrong.
pub fn one_task()
    ensures { (texts : List (List ℕ)) (files : Files) (a b : Result Task Answer) → OutcomeOf texts files a → OutcomeOf texts files b → a ≡ b }
{
    one_outcome();
}

/// Calls of `run` for one job, or of `shard` for one part of it, on a disk that tells its content, as often as one likes, each of which ends
/// in its answer or in a crash at any of its moments: where the first begins on a journal each image of which is blank or honest, each image
/// of each moment of each call is honest; what every image of a moment keeps, every image of every later moment keeps; and a call with status
/// 0 has appended exactly the record file of the direct sums, or the line of its part.
pub fn one_after_another<D: Disk>()
    ensures { HoldsOver D.seen D.moment D.may_leave }
{
    one_outcome();
    one_plan_for_job();
    parts_have_the_plan();
    reads();
}

/// What is honest for a call of `run` or `shard`, what is kept and what the records are does not depend on the samples of an epoch, the
/// workers, the piece or the order of the options.
pub fn alike_by_job()
    ensures { AlikeByJob }
{
    one_outcome();
    one_plan_for_job();
    parts_have_the_plan();
    reads();
}
