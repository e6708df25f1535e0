//! A job that is ready to be summed: its plan, its epochs and the length of one in force, the recordings of its stations with their
//! indexes, and its identity in a journal. It stands on `job_plan`, `job_epochs`, `plan_places`, `station_stream` and
//! `checkpoint_journal`, and on no text that a job is read from: what sums a job needs no schedule and no words.
#![tactic(auto)]

mod ready;

pub use ready::Ready;
