//! The integrations of a scan, and a scan with some of them alone.
ghost use Rattle.std.specs.Prelude.{◌≡◌, ◌≤◌, ◌<◌, ◌*◌, ◌^◌, ℕ, List};
ghost use Rattle.piece_plan.specs.{declared.job.ScanSize.{ScanSize}, Epochs.{integration_count, job_sizes}, Limited.{limited_scan}};

use crate::ScanSize;

/// How many integrations of a scan belong to the job.
pub fn integrations_in(size: &ScanSize, integration: u64) -> u64
    requires integration { 0 < integration }
    requires first { size.now.first * integration ≤ size.now.samples }
    requires samples { size.now.samples ≤ 2 ^ 40 }
    ensures count { (scans : List ScanSize) (epoch lags : ℕ) → result ≡ integration_count (job_sizes scans integration epoch lags) size.now }
    ensures few { result ≤ 2 ^ 40 }
{
    (size.samples - size.first * integration).div_ceil(integration)
}

// A scan with its integrations from the one place up to, not including, the other, counted from its
// first. It has as many at least.
pub(crate) fn limited_scan(size: &ScanSize, integration: u64, from: u64, to: u64) -> ScanSize
    requires integration { 0 < integration }
    requires longest { integration ≤ 2 ^ 36 }
    requires first { size.now.first * integration ≤ size.now.samples }
    requires samples { size.now.samples ≤ 2 ^ 40 }
    requires within { (scans : List ScanSize) (epoch lags : ℕ) → to ≤ integration_count (job_sizes scans integration epoch lags) size.now }
    ensures { (scans : List ScanSize) (epoch lags : ℕ) → result ≡ limited_scan (job_sizes scans integration epoch lags) size.now from to }
{
    if from < to {
        ScanSize {
            first: size.first + from,
            samples: size.samples.min((size.first + to) * integration),
            ..*size
        }
    } else {
        ScanSize {
            first: 0,
            samples: 0,
            ..*size
        }
    }
}
