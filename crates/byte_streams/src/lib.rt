//! The values of a row of samples as biased bytes: streams of both components, and where there is a value; or, where all are there and have
//! one direction, a stream of levels. Components are added and subtracted byte by byte. It stands on `byte_lags` for what a stream of
//! biased bytes is. No call takes memory.
#![tactic(auto)]

mod row;
mod streams;
mod sums;

pub use row::{Levels, Row};
pub use streams::Streams;
pub use sums::{component_differences, component_sums};
