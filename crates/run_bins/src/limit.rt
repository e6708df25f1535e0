//! How many cells an integration has.
ghost use Rattle.std.specs.Prelude.{◌≡◌, ◌≤◌, nat_lt, find, option_map, IfErr, OnOk};
ghost use Rattle.std.specs.List.{All};
ghost use Rattle.job_plan.specs.Ranges.{IsPlan, IsScanPlan};
ghost use Rattle.bin_sums.specs.Binned.{bin_width};
ghost use Rattle.run_ready.specs.{Due.{IsDue}, Stage.{IsOfTexts}};
ghost use Rattle.run_bins.specs.Outcome.{too_many_cells, is_wide};

use job_plan::{Plan, Plan0, ScanPlan};
use pulsar_bins::Bins;
use run_notes::{Due, Measure, Refusal};

// The greatest number of cells of an integration.
const MOST_CELLS: usize = 4_194_304;

// How many cells an integration of a scan has.
pub(crate) fn width_of(plan: &Plan, bins: &Bins, scan: &ScanPlan) -> usize
    requires plan { IsPlan plan.now }
    requires scan { IsScanPlan plan.now scan.now }
    ensures { result ≡ bin_width plan.now bins.now scan.now }
{
    let records = plan.products.items().len() * scan.baselines.items().len();
    records * bins.count as usize * plan.lags as usize
}

// The most cells that an integration of these scans has.
pub(crate) fn widest(plan: &Plan, bins: &Bins, scans: &[ScanPlan]) -> usize
    requires plan { IsPlan plan.now }
    requires scans { All (IsScanPlan plan.now) scans.now }
    ensures { All (λ scan. bin_width plan.now bins.now scan ≤ result) scans.now }
{
    let mut most = 0;
    for scan in scans {
        most = most.max(width_of(plan, bins, scan));
    }
    most
}

// The number of cells of the first of these scans whose integrations have too many.
fn first_wide(plan: &Plan, bins: &Bins, scans: &[ScanPlan]) -> Option<usize>
    requires plan { IsPlan plan.now }
    requires scans { All (IsScanPlan plan.now) scans.now }
    ensures { result ≡ option_map (bin_width plan.now bins.now) (find (is_wide plan.now bins.now) scans.now) }
{
    for scan in scans {
        let width = width_of(plan, bins, scan);
        if width > MOST_CELLS {
            return Some(width);
        }
    }
    None
}

// Whether the integrations of each scan have few enough cells.
pub(crate) fn check_cells(bins: &Bins, plan: &Plan0) -> Result<(), Refusal>
    ensures few { OnOk result (All (λ scan. bin_width plan.now bins.now scan ≤ 4194304) plan.now.scans) }
    ensures none { OnOk result (too_many_cells plan.now bins.now ≡ None) }
    ensures due { IfErr result (λ r. IsDue r (too_many_cells plan.now bins.now)) }
    ensures stage { IfErr result IsOfTexts }
{
    let within = plan.plan();
    match first_wide(within, bins, within.scans.items()) {
        Some(width) => Err(Refusal::Due(Due::Limit(Measure::BinCells, width as u128))),
        None => Ok(()),
    }
}
