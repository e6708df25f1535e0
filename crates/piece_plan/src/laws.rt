//! What follows from the definitions. The functions do nothing: a call brings its law.
ghost use Rattle.std.specs.Prelude.{◌≡◌, ◌↔◌, ◌+◌, ◌≤◌, ◌<◌, ℕ, ℤ, List, length};
ghost use Rattle.corr_model.specs.{declared.cell.Pair.{Pair}, Cell.{Samples, cell_in}};
ghost use Rattle.piece_plan.specs.{declared.job.ScanSize.{ScanSize}, Parts.{Range, GoThrough, parts}, declared.epoch.EpochPlan.{EpochPlan}};
ghost use Rattle.piece_plan.specs.{Epochs.{JobSizes, IsJob, IsEpoch, integration_at, integration_count, integration_epochs, ranges_of, epochs_of}, Order.{place_of, CoverJob}};
ghost use Rattle.piece_plan.specs.{Limited.{integration_number, limited}, Sums.{cell_over}};

/// The parts of a range go through it.
pub fn parts_go_through()
    ensures { (from to step : ℕ) → from ≤ to → 0 < step → GoThrough from to (parts from to step) }
{}

/// The epochs of an integration go through it.
pub fn epochs_go_through_integration()
    ensures { (job : JobSizes) (number m : ℕ) (size : ScanSize) → IsJob job → size.first ≤ m → m < size.first + integration_count job size
        → GoThrough (integration_at job size m).from (integration_at job size m).to
        (ranges_of (integration_epochs job number size m)) }
{}

/// The epochs of a job go through it in order.
pub fn epochs_cover_job()
    ensures { (job : JobSizes) → IsJob job → CoverJob job (epochs_of job) }
{}

/// A job that is limited to some of its integrations is a job.
pub fn limited_jobs_are_jobs()
    ensures { (job : JobSizes) (from to : ℕ) → IsJob job → IsJob (limited job from to) }
{}

/// Its epochs are those of the job whose integrations have such a number.
pub fn epochs_of_limited()
    ensures { (job : JobSizes) (from to : ℕ) (e : EpochPlan) → IsJob job
        → IsEpoch (limited job from to) e
        ↔ (IsEpoch job e × (from ≤ integration_number job (place_of e)) × (integration_number job (place_of e) < to)) }
{}

/// It is cut into no more epochs than the job.
pub fn limited_jobs_are_shorter()
    ensures { (job : JobSizes) (from to : ℕ) → IsJob job → length (epochs_of (limited job from to)) ≤ length (epochs_of job) }
{}

/// The cell of a range is the sum of that cell over ranges that go through it.
pub fn cells_add_up()
    ensures { (z : Samples) (pair : Pair) (samples : ℕ) (lag : ℤ) (from to : ℕ) (ranges : List Range)
        → GoThrough from to ranges
        → cell_over z pair samples lag ranges ≡ cell_in z pair samples lag from to }
{}
