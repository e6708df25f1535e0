//! The cells of all lags of a range of samples in one call. It stands on `corr_model` for values and cells, on `bit_planes` and
//! `byte_streams` for values as bytes, and on `block_lags` for the sums of a block. From values, a block of the range is taken at a
//! time: each value that its pairs need is asked for once, and all lags are summed from the components of the values that are
//! held. From planes of two channels, a block of 4,096 samples is taken at a time too, which stays in the near cache through all
//! lags. The cells are those of the direct sums, for every range and every number of lags. No call takes memory. (Thompson, Moran
//! and Swenson, chapter 8.)
#![tactic(auto)]

mod block;
mod cut;
mod lags;
mod parts;
mod planes;
mod row;
mod rows;
mod sums;
#[cfg(test)]
mod tests;

pub use lags::plain_lags;
pub use planes::plane_lags;
