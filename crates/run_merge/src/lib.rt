//! The command that merges the journals of a job's parts into the job's record file: the job is read and joined, the sizes of its recordings
//! and of the journals are looked at, each journal is read as that of a part of the job, and where they make the job together, the record
//! file is appended. It stands on `run_ready` for the job, on `shard_merge` for the journals, and on `run_notes` for refusals.
//!
//! `specs/Outcome` says what the files come to: the job's plan and the epochs that each journal keeps, or the answer of the first thing that
//! is wrong. The files come to one of these and no other, and journals that keep the direct sums make the record file of the job (`laws`).
#![tactic(auto)]

mod command;
mod compared;
mod job;
pub mod laws;
mod lists;
mod load;
mod shards;
mod sizes;
mod written;

pub use command::write_merge;
