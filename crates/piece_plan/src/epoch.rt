//! One epoch.
ghost use Rattle.std.specs.Prelude.{◌≡◌};

/// The samples from `from` up to, not including, `to` of a scan, all of its integration `m`: a range
/// that is loaded and summed as one. `scan` counts the scans of the job; each of the scan's `products`
/// at each of its `baselines` has a cell for each of the `lags`.
#[derive(Clone, Copy, Debug, PartialEq, Eq)]
pub struct EpochPlan {
    pub scan: u32,
    pub m: u64,
    pub from: u64,
    pub to: u64,
    pub products: u32,
    pub baselines: u32,
    pub lags: u32,
}

impl EpochPlan {
    ghost use Rattle.piece_plan.specs.Epochs.{IsOfPlan, cell_count};

    /// The number of its cells: one for each product, baseline and lag.
    pub fn cells(&self) -> u32
        requires { IsOfPlan self.now }
        ensures { result ≡ cell_count self.now }
    {
        self.products * self.baselines * self.lags
    }
}
