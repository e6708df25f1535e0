//! The cells of all lags of a block of samples, from the rows of two stations. Where the components of both turn, the sums are those of three
//! products of real streams (Gauss); where one row has one direction they are those of two, and of one where both have. Pairs are counted
//! where both values are there. It stands on `byte_lags` and `byte_sums` for the sums, on `byte_streams` for rows of values as bytes and on
//! `corr_model` for what a cell is. The cells are those of the direct sums, for every block and every number of lags. No call takes memory.
#![tactic(auto)]

mod counts;
mod lags;
mod pairs;
mod still;
mod turning;
mod uniform;

pub use lags::add_lags;
