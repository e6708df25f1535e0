//! What follows from the definitions. The functions do nothing: a call brings its law.
ghost use Rattle.std.specs.Prelude.{◌≡◌, ◌≢◌, ℕ, List, None, Some};
ghost use Rattle.std.specs.List.{All};
ghost use Rattle.corr_model.specs.Files.{Files};
ghost use Rattle.piece_plan.specs.Epochs.{JobSizes, IsJob};
ghost use Rattle.job_plan.specs.{declared.plan.Plan.{Plan}, Ranges.{IsPlan}, Output.{output}};
ghost use Rattle.job_epochs.specs.Sizes.{sizes_of};
ghost use Rattle.journal_image.specs.{declared.difference.Differs.{Differs}, Image.{KeptEpoch}};
ghost use Rattle.shard_merge.specs.{declared.fault.CellsDiffer.{CellsDiffer}, declared.fault.MergeFault.TheVariants.{Uncovered, Differs as TheyDiffer}, Shards.{ShardKeeps, IsNoShard}};
ghost use Rattle.shard_merge.specs.{Verdict.{verdict}, Merged.{merged}, Honest.{AreHonest, EpochsFit}};

/// The file of a part's journal keeps the same epochs, however it is read.
pub fn one_list()
    ensures { (id : List ℕ) (job : JobSizes) (image : List ℕ) (kept other : List KeptEpoch) → IsJob job
        → ShardKeeps id job image kept → ShardKeeps id job image other → kept ≡ other }
{}

/// A file that is refused keeps no epochs of a part, and differs at one place.
pub fn one_refusal()
    ensures none { (id : List ℕ) (job : JobSizes) (image : List ℕ) (kept : List KeptEpoch) (d : Differs) → IsJob job
        → IsNoShard id job image d → ShardKeeps id job image kept → ⊥ }
    ensures place { (id : List ℕ) (job : JobSizes) (image : List ℕ) (d e : Differs) → IsJob job
        → IsNoShard id job image d → IsNoShard id job image e → d ≡ e }
{}

/// The epochs that the file of a part's journal keeps are some of the job's.
pub fn kept_epochs_fit()
    ensures { (id : List ℕ) (job : JobSizes) (image : List ℕ) (kept : List KeptEpoch) → IsJob job → ShardKeeps id job image kept → EpochsFit job kept }
{}

/// Of shards whose epochs have each the text of its sums no two differ.
pub fn honest_shards_agree()
    ensures { (plan : Plan) (files : Files) (keeps : List (List KeptEpoch)) (d : CellsDiffer) → IsPlan plan
        → All (EpochsFit (sizes_of plan)) keeps → All (AreHonest plan files) keeps
        → verdict (sizes_of plan) keeps ≢ Some (TheyDiffer d) }
{}

/// Where each integration is covered by one of them, they make the record file that the plan comes to.
pub fn honest_shards_make_the_output()
    ensures { (plan : Plan) (files : Files) (keeps : List (List KeptEpoch)) → IsPlan plan
        → All (EpochsFit (sizes_of plan)) keeps → All (AreHonest plan files) keeps
        → verdict (sizes_of plan) keeps ≡ None → merged plan keeps ≡ output plan files }
{}
