//! The schedule of a VEX file (VEX 1.5): its scans, with the stations that take part in each, and the
//! sample rate and the channels that each station's setup gives. It stands on `vex_reader` for the
//! file, `num_time` for numbers, times and names, and `scan_list` for the scans.
//!
//! `specs/Schedule.antt` says which scans a file has, or which fault is the first, a definition for
//! each step, and `laws` which scans these are with no order of reading. `schedule` answers that, or want of memory;
//! statements that no step names are not read. A def of `$FREQ` is read once, however many stations it sets up, and
//! these share its channels; so are the refs of a mode, and a station's is found by its key.
#![tactic(auto)]

mod covering;
mod fault;
pub mod laws;
mod part;
mod quantities;
mod scans;
mod setup;
mod statements;
mod stay;
mod values;

pub use fault::{SchedFault, SchedKind};
pub use scans::schedule;
