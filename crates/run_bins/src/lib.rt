//! The command that sorts the sums of a job by the bins of a pulse: the job is read and joined, then the text of phases, then the
//! recordings are indexed, and the text of the cells of all bins is appended to the output. It stands on `run_ready` for the job, on
//! `pulsar_bins` for the text of phases, on `bin_sums` for the cells, on `bin_records` for their text, and on `run_notes` for refusals.
//!
//! `specs/Outcome` says what the files come to: a plan with bins, or the answer of the first thing that is wrong, and `specs/Texts` what is
//! appended. The files come to one of these and no other (`laws`).
#![tactic(auto)]

mod command;
mod job;
pub mod laws;
mod limit;
mod load;
mod phase;
mod records;
mod writer;

pub use command::write_bins;
