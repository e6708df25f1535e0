//! What follows from the definitions. The function does nothing: a call brings its law.
ghost use Rattle.std.specs.Prelude.{◌≡◌, ◌≤◌, ℕ, ℤ};
ghost use Rattle.corr_model.specs.Cell.{Samples};
ghost use Rattle.job_plan.specs.{declared.plan.ProductPlan.{ProductPlan}, declared.plan.BaselinePlan.{BaselinePlan}, declared.plan.ScanPlan.{ScanPlan}, declared.plan.Plan.{Plan}, Output.{cell_of}};
ghost use Rattle.pulsar_bins.specs.{Bins.{BinsFields}, Cells.{all_bins, bin_cell_of}};

/// The cells of all bins add up to the cell, whatever the values of the scan.
pub fn bins_add_up()
    ensures { (plan : Plan) (bins : BinsFields) (z : Samples) (scan : ScanPlan) (m : ℕ) (p : ProductPlan) (b : BaselinePlan) (lag : ℤ) → 1 ≤ bins.count
        → all_bins bins.count (bin_cell_of plan bins z scan m p b lag) ≡ cell_of plan z scan m p b lag }
{}
