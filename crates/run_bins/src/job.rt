//! Jobs with the bins of a pulse.
ghost use Rattle.std.specs.Prelude.{◌≡◌, ◌≤◌, None};
ghost use Rattle.std.specs.List.{All};
ghost use Rattle.pulsar_bins.specs.Scans.{no_phase};
ghost use Rattle.bin_sums.specs.Binned.{bin_width};

use pulsar_bins::Bins;
use ready_job::Ready;

/// A job that is ready, and the bins of a pulse that has a phase at each sample of its scans. No integration has more than 4,194,304
/// cells.
#[derive(Drop)]
pub(crate) struct BinJob {
    pub(crate) ready: Ready,
    pub(crate) bins: Bins,
    pub(crate) ghost covered: { no_phase bins ready.plan ≡ None },
    pub(crate) ghost few: { All (λ scan. bin_width ready.plan bins scan ≤ 4194304) ready.plan.scans },
}
