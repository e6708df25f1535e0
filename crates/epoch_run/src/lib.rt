//! The sums of an epoch, by threads that share its work. It stands on `station_stream` for the values of the stations, on
//! `piece_plan` for the pieces of the epoch, on `bit_planes` and `lag_kernel` for the cells of a piece, and on `atomic_sums` for the
//! board on which they add up, and on `pulsar_bins` where they are sorted by the bins of a pulse. The planes of all stations are made
//! first, apart from the sums, so that they can be made while another epoch is summed. Then each worker draws pieces and posts their
//! cells until no piece is left; when all have ended the board is closed. Whatever the workers do, and however long a piece is, the
//! sums are the direct sums over the epoch's samples; by bins, those over the samples of each bin. A worker takes no memory. (Thompson,
//! Moran and Swenson, chapter 8.)
#![tactic(auto)]

mod amounts;
mod coded;
mod copied;
mod phase;
mod planes;
mod run;
mod team;
#[cfg(test)]
mod tests;
mod values;
mod work;

pub use planes::EpochPlanes;
pub use run::{run_bins, run_epoch, sum_bins, sum_planes};
pub use work::{Work, work_pieces};
