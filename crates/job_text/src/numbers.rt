//! The numbers that each job states.

/// The number of lags, and the samples of an integration and of an epoch.
#[derive(Clone, Copy)]
pub(crate) struct Numbers {
    pub(crate) lags: u32,
    pub(crate) integration: u64,
    pub(crate) epoch: u32,
}
