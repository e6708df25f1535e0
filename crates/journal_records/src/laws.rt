//! What follows from the definitions. The functions do nothing: a call brings its law.
ghost use Rattle.std.specs.Prelude.{◌≡◌, List, map};
ghost use Rattle.std.specs.List.{All};
ghost use Rattle.corr_model.specs.Files.{Files};
ghost use Rattle.piece_plan.specs.Order.{CoverJob};
ghost use Rattle.job_plan.specs.{declared.plan.Plan.{Plan}, Ranges.{IsPlan}, Output.{output}};
ghost use Rattle.job_epochs.specs.{Sizes.{sizes_of}, Sums.{epoch_sums}};
ghost use Rattle.checkpoint_journal.specs.Cells.{body_text};
ghost use Rattle.journal_image.specs.Image.{KeptEpoch};
ghost use Rattle.journal_records.specs.Kept.{kept_text};

/// Where epochs in order cover the job, however long each of them is, and the body of each is the text of its sums, the record
/// file is the one that the plan comes to.
pub fn sums_make_the_output()
    ensures { (plan : Plan) (files : Files) (kept : List KeptEpoch) → IsPlan plan
        → CoverJob (sizes_of plan) (map (λ (k : KeptEpoch). k.epoch) kept)
        → All (λ (k : KeptEpoch). k.body ≡ body_text (epoch_sums plan files k.epoch)) kept
        → kept_text plan kept ≡ output plan files }
{}
