//! A job and a schedule, joined: the scans that the job takes, its stations in them, and the plan that comes of both, or the
//! first cause for which they do not go together. It stands on `job_text` and `scan_list` for the two, on `job_plan` for
//! the plan, and on `delay_track` for the question whether every sample of a scan has a delay. (VEX 1.5, `$SCHED` and
//! `$FREQ`.)
#![tactic(auto)]

mod channels;
mod fault;
mod frames;
mod join;
mod joining;
mod limits;
mod lists;
mod measures;
mod modelled;
mod names;
mod parts;
mod places;
mod plans;
mod rates;
mod reach;
mod refusal;
mod scans;
mod spans;
mod stands;
mod takes;

pub use fault::{JoinFault, Quantity};
pub use join::join_job;
