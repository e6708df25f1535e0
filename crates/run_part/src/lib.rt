//! A part of a job, ready to be summed into a journal of its own: a range of its integrations, which are counted from 0 through all
//! scans. It stands on `run_ready` for the job, on `piece_plan` for the plan of the part and on `checkpoint_journal` for its identity.
//! The range is looked at once the job is joined, and before its recordings are.
#![tactic(auto)]

pub mod laws;
mod part;

pub use part::{ReadyPart, prepare_part};
