//! The scans of a schedule, with the stations that take part in each and the channels of their setups, wherever they come from:
//! `vex_schedule` reads them from a schedule in VEX, `job_text` makes them of a job that states its scans itself. It stands on
//! `num_time` for names and on `item_list` for lists. `specs/Sound` says what each schedule keeps.
#![tactic(auto)]

mod chans;
mod list;
mod scan;

pub use chans::ChanList;
pub use list::ScanList;
pub use scan::{Chan, Pass, Scan};
