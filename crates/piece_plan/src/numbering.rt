//! The numbers of epochs: how many a scan has, which scan has the one with a number, and which epoch of
//! its scan that is.
ghost use Rattle.std.specs.Prelude.{◌≡◌, ◌-◌, ◌*◌, ◌^◌, ◌<◌, ◌≤◌, ℕ, List, length, slice_index};
ghost use Rattle.std.specs.List.Sorted.{IsNonDecreasingBy};
ghost use Rattle.piece_plan.specs.{declared.job.ScanSize.{ScanSize}, Epochs.{job_sizes}, Counts.{count_in, epoch_at}};

use crate::{EpochPlan, ScanSize};

/// The number of epochs of so many samples, cut into integrations of so many samples and each of these into epochs.
pub fn epochs_in(samples: u64, integration: u64, epoch: u64) -> u64
    requires integration { 0 < integration }
    requires epoch { 0 < epoch }
    ensures count { result ≡ count_in samples integration epoch }
    ensures within { result ≤ samples }
{
    samples / integration * integration.div_ceil(epoch) + (samples % integration).div_ceil(epoch)
}

// The first of the numbers that is above i.
pub(crate) fn first_above(ends: &[u64], i: u64) -> usize
    requires some { 0 < length ends.now }
    requires last { i < slice_index ends.now (length ends.now - 1) }
    requires sorted { IsNonDecreasingBy (λ x. x) ends.now }
    ensures within { result < length ends.now }
    ensures above { i < slice_index ends.now result }
    ensures before { (k : ℕ) → k < result → slice_index ends.now k ≤ i }
{
    ends.partition_point(|end| *end <= i)
}

// The number at the place before, 0 at the first.
pub(crate) fn number_before(ends: &[u64], at: usize) -> u64
    requires { at < length ends.now }
    ensures first { at ≡ 0 → result ≡ 0 }
    ensures later { 0 < at → result ≡ slice_index ends.now (at - 1) }
{
    if at == 0 { 0 } else { ends[at - 1] }
}

// Epoch `j` of a scan, counted from the first of its first integration.
pub(crate) fn epoch_in(
    number: u32,
    size: &ScanSize,
    integration: u64,
    epoch: u64,
    lags: u32,
    j: u64,
) -> EpochPlan
    requires samples { size.now.samples ≤ 2 ^ 40 }
    requires integration { 0 < integration }
    requires longest { integration ≤ 2 ^ 36 }
    requires epoch { 0 < epoch }
    requires short { epoch ≤ 4194304 }
    requires first { size.now.first * integration ≤ size.now.samples }
    requires inside { j < count_in (size.now.samples - size.now.first * integration) integration epoch }
    ensures { (scans : List ScanSize)
        → result ≡ epoch_at (job_sizes scans integration epoch lags) number size.now j }
{
    let per = integration.div_ceil(epoch);
    let m = size.first + j / per;
    let start = m * integration;
    let end = size.samples.min(start + integration);
    let from = start + j % per * epoch;
    EpochPlan {
        scan: number,
        m,
        from,
        to: end.min(from + epoch),
        products: size.products,
        baselines: size.baselines,
        lags,
    }
}
