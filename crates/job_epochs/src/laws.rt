//! What follows from the definitions. The functions do nothing: a call brings its law.
ghost use Rattle.std.specs.Prelude.{◌≡◌, ◌<◌, ◌≤◌, ℕ, length, slice_get, Some};
ghost use Rattle.corr_model.specs.Files.{Files};
ghost use Rattle.piece_plan.specs.{declared.epoch.EpochPlan.{EpochPlan}, Epochs.{epochs_of, cell_count}};
ghost use Rattle.job_plan.specs.{declared.plan.ScanPlan.{ScanPlan}, declared.plan.Plan.{Plan}, Ranges.{IsPlan}, Values.{rotated}, Output.{integrations_of, integration_cells}};
ghost use Rattle.job_epochs.specs.{Sizes.{sizes_of}, Sums.{epoch_sums, sums_of}, Added.{added_cells, width_of}};

/// The sums of the epochs of an integration, added with wrap, are the integration's cells: no sum wraps.
pub fn epochs_add_up()
    ensures { (plan : Plan) (files : Files) (number m : ℕ) (scan : ScanPlan) → IsPlan plan → length plan.scans ≤ 8388608
        → slice_get plan.scans number ≡ Some scan → m < integrations_of plan scan
        → added_cells plan (sums_of plan files) scan number m ≡ integration_cells plan (rotated plan files scan) scan m }
{}

/// An epoch has as many sums as cells.
pub fn sums_are_counted()
    ensures { (plan : Plan) (files : Files) (i : ℕ) (e : EpochPlan) → slice_get (epochs_of (sizes_of plan)) i ≡ Some e
        → length (sums_of plan files i) ≡ cell_count e }
{}
