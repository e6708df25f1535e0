//! The cells of a range of samples, added to those of the records.
ghost use Rattle.std.specs.Prelude.{◌≡◌, ◌≤◌, ◌-◌, ◌*◌, ◌^◌, length};
ghost use Rattle.job_plan.specs.Ranges.{IsPlan, IsScanPlan};
ghost use Rattle.job_epochs.specs.{Sums.{lag_cells, baseline_cells, range_cells}, Added.{add_cells, plus_wrapped, width_of}};

use corr_model::{Cell, Pair, Values};
use job_plan::{BaselinePlan, Plan, ProductPlan, ScanPlan};
use lag_kernel::plain_lags;

/// Adds the cells of the samples from `from` up to, not including, `to`: by product, then by baseline, then by rising lag.
/// `lags` has room for the cells of a record.
pub(crate) fn add_range<V: Values>(
    plan: &Plan,
    scan: &ScanPlan,
    v: &V,
    from: u64,
    to: u64,
    lags: &mut [Cell],
    cells: &mut [Cell],
)
    requires plan { IsPlan plan.now }
    requires scan { IsScanPlan plan.now scan.now }
    requires order { from ≤ to }
    requires inside { to ≤ scan.now.samples }
    requires range { to - from ≤ 2 ^ 36 }
    requires lags { length lags.old ≡ plan.now.lags }
    requires room { length cells.old ≡ width_of plan.now scan.now }
    ensures { cells.new ≡ add_cells cells.old (range_cells plan.now (V.samples v.now) scan.now from to) }
{
    let width = scan.baselines.items().len() * plan.lags as usize;
    for (i, product) in plan.products.items().iter().enumerate() {
        let at = i * width;
        let part = &mut cells[at..at + width];
        add_product(plan, scan, v, from, to, product, lags, part);
    }
}

// Adds those of a product, by baseline.
fn add_product<V: Values>(
    plan: &Plan,
    scan: &ScanPlan,
    v: &V,
    from: u64,
    to: u64,
    product: &ProductPlan,
    lags: &mut [Cell],
    cells: &mut [Cell],
)
    requires plan { IsPlan plan.now }
    requires scan { IsScanPlan plan.now scan.now }
    requires order { from ≤ to }
    requires inside { to ≤ scan.now.samples }
    requires range { to - from ≤ 2 ^ 36 }
    requires lags { length lags.old ≡ plan.now.lags }
    requires room { length cells.old ≡ length scan.now.baselines * plan.now.lags }
    ensures { cells.new ≡ add_cells cells.old (baseline_cells plan.now (V.samples v.now) scan.now from to product.now) }
{
    let width = plan.lags as usize;
    for (i, baseline) in scan.baselines.items().iter().enumerate() {
        let at = i * width;
        let part = &mut cells[at..at + width];
        add_record(plan, scan, v, from, to, product, baseline, lags, part);
    }
}

// Adds those of a product at a baseline, by rising lag.
fn add_record<V: Values>(
    plan: &Plan,
    scan: &ScanPlan,
    v: &V,
    from: u64,
    to: u64,
    product: &ProductPlan,
    baseline: &BaselinePlan,
    lags: &mut [Cell],
    cells: &mut [Cell],
)
    requires plan { IsPlan plan.now }
    requires scan { IsScanPlan plan.now scan.now }
    requires order { from ≤ to }
    requires inside { to ≤ scan.now.samples }
    requires range { to - from ≤ 2 ^ 36 }
    requires lags { length lags.old ≡ plan.now.lags }
    requires room { length cells.old ≡ plan.now.lags }
    ensures { cells.new ≡ add_cells cells.old (lag_cells plan.now (V.samples v.now) scan.now from to product.now baseline.now) }
{
    let pair = Pair {
        a: baseline.a,
        x: product.x,
        b: baseline.b,
        y: product.y,
    };
    plain_lags(v, &pair, from, to, scan.samples, lags);
    add_cells(cells, lags);
}

// Adds a record's cells.
fn add_cells(cells: &mut [Cell], lags: &[Cell])
    requires { length cells.old ≡ length lags.now }
    ensures { cells.new ≡ add_cells cells.old lags.now }
{
    for (i, cell) in cells.iter_mut().enumerate() {
        *cell = sum(cell, &lags[i]);
    }
}

// The sum of two cells. No number of a scan's cells reaches 64 bits, so none wraps.
fn sum(cell: &Cell, lag: &Cell) -> Cell
    ensures { result ≡ plus_wrapped cell.now lag.now }
{
    let re = cell.re.wrapping_add(lag.re);
    let im = cell.im.wrapping_add(lag.im);
    let count = cell.count.wrapping_add(lag.count);
    Cell { re, im, count }
}
