//! The cells of one integration of a scan, on one thread, from the values of one part of it after another. It stands on
//! `station_stream` for the values of a station, on `lag_kernel` for the cells of a part, and on `job_epochs` for what parts
//! add up to. The cells are those of the definition, and no more values are in memory than those of 262,144 samples and of the
//! samples that their lags reach.
#![tactic(auto)]

mod records;
mod sums;
mod values;

pub use sums::sum_integration;
