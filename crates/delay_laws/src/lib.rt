//! The list of all runs of one whole delay through a range of samples, and what holds of every such list. It stands on
//! `delay_track` for the runs one after another, and on `corr_model` for the delay at a sample. A list covers its range
//! end to end, the whole delay is the same within each of its runs and differs across each border, and a range has one
//! such list and no second one.
#![tactic(auto)]

mod runs;
#[cfg(test)]
mod tests;

pub use runs::{all_runs, one_list_of_runs};
