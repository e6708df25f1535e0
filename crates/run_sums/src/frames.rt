//! The frames that an epoch is summed from.

use corr_model::Pair;
use station_stream::StayFrames;

/// The frames that an epoch is summed from: the pair of each group, the frames of each station's part of the scan, in the order of
/// these, and room for the codes of each channel of each station, station by station.
#[derive(Drop)]
pub struct EpochFrames {
    pub pairs: Vec<Pair>,
    pub rows: Vec<Vec<u8>>,
    pub stations: Vec<StayFrames>,
}
