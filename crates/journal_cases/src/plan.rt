//! The plan of a job, as a line writes it.
ghost use Rattle.std.specs.Prelude.{◌≡◌, ◌*◌, ℕ, All, IfOk, IfSome};
ghost use Rattle.piece_plan.specs.Epochs.{IsScan};
ghost use Rattle.journal_cases.specs.Few.{HasFewCells, AreFew};

use anyhow::{Context, Result, bail};
use piece_plan::{JobPlan, ScanSize};
use std::alloc::Global;

/// The plan of these words: the samples of an integration, those of an epoch, the number of lags, and for each scan its
/// samples, products and baselines, with commas between them. No epoch has more than 1,000 cells.
pub fn plan_of(alloc: Global, rest: &str) -> Result<JobPlan>
    ensures { IfOk result AreFew }
{
    let mut words = rest.split_whitespace();
    let integration = words.next().context("an integration")?.parse::<u64>()?;
    let epoch = words.next().context("an epoch")?.parse::<u64>()?;
    let lags = words.next().context("lags")?.parse::<u32>()?;
    let mut scans = Vec::new(alloc);
    for word in words {
        let scan = scan_of(word, lags)?;
        scans.push(scan)?;
    }
    plan_of_sizes(alloc, &scans, integration, epoch, lags)
}

// The plan of scans of these sizes.
fn plan_of_sizes(
    alloc: Global,
    scans: &[ScanSize],
    integration: u64,
    epoch: u64,
    lags: u32,
) -> Result<JobPlan>
    requires scans { All (IsScan integration lags) scans.now }
    requires few { All (HasFewCells lags) scans.now }
    ensures { IfOk result AreFew }
{
    if integration == 0 || integration > 10_000_000 {
        bail!("no such integration");
    }
    if epoch == 0 || epoch > 4_194_304 {
        bail!("no such epoch");
    }
    if lags < 2 || lags > 1024 || lags % 2 != 0 {
        bail!("no such number of lags");
    }
    if scans.len() > 1000 {
        bail!("too many scans");
    }
    Ok(JobPlan::new(alloc, scans, integration, epoch, lags)?)
}

// The size of a scan.
fn scan_of(word: &str, lags: u32) -> Result<ScanSize>
    ensures scan { IfOk result (λ size. (integration : ℕ) → IsScan integration lags size) }
    ensures few { IfOk result (HasFewCells lags) }
{
    let mut parts = word.split(',');
    let samples = parts.next().context("samples")?.parse::<u64>()?;
    let products = parts.next().context("products")?.parse::<u32>()?;
    let baselines = parts.next().context("baselines")?.parse::<u32>()?;
    let Some(cells) = cells_of(products, baselines, lags) else {
        bail!("too many cells");
    };
    if samples > 10_000_000 || products == 0 || baselines == 0 || cells > 1000 {
        bail!("no such scan");
    }
    Ok(ScanSize {
        first: 0,
        samples,
        products,
        baselines,
    })
}

// The number of cells of an epoch.
fn cells_of(products: u32, baselines: u32, lags: u32) -> Option<u32>
    ensures { IfSome result (λ cells. cells ≡ products * baselines * lags) }
{
    let groups = products.checked_mul(baselines)?;
    groups.checked_mul(lags)
}
