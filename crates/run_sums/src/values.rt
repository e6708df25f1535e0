//! The values that an epoch is summed from.

use corr_model::Pair;
use epoch_run::EpochPlanes;

/// The values that an epoch is summed from: the pair of each group, and the planes of the stations' channels.
#[derive(Drop)]
pub struct EpochValues {
    pub pairs: Vec<Pair>,
    pub planes: EpochPlanes,
}
