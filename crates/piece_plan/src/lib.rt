//! The epochs of a job and the pieces of an epoch: which samples are summed together, and in what
//! order. Each integration of each scan is cut into epochs, and each epoch into pieces for every
//! product and baseline; a job can be limited to some of its integrations. It stands on `corr_model`
//! for the cells whose sums the parts add up to. The epochs go through the job in order, each inside
//! one integration; one is found by its number in a time that grows with the logarithm of the number of
//! scans, from a count for each scan and none for each epoch. (Thompson, Moran and Swenson, chapter 8.)
#![tactic(auto)]

mod epoch;
mod job;
pub mod laws;
mod limit;
mod numbering;
mod piece;

pub use epoch::EpochPlan;
pub use job::{JobPlan, ScanSize};
pub use limit::integrations_in;
pub use numbering::epochs_in;
pub use piece::{Piece, PiecePlan};

#[cfg(test)]
mod tests;
