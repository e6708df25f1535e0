//! The text of a job and the job that it says: its numbers, its stations with their files, channels, clocks
//! and polynomials, its products, and the scans and bands of a job that states them itself. It stands on
//! `job_lines` for lines, fields and words, on `num_time`, `entry_list`, `delay_poly` and `station_clock` for
//! what fields say, and on `scan_list` for schedules.
//!
//! `specs/Values.antt` says what the fields behind a word say, `specs/Said.antt` what rows say together,
//! `specs/Faults.antt` the fault of a line behind others, and `specs/Answer.antt` the job of a text or the
//! first fault. `read_job` answers that, or want of memory. `inline_schedule` gives the schedule of a job
//! that states its scans itself, as `specs/Inline.antt` says it, and `laws` has what every text's job keeps.
//! A draft takes the lines one behind the other, and in it stations take those that state or name them. What
//! is known of stations, channels and names is found by hashes or ordered maps, so that no line is compared
//! with all earlier ones.
#![tactic(auto)]

mod draft;
mod entries;
mod fault;
mod frame;
mod inline;
mod job;
pub mod laws;
mod numbers;
mod pairs;
mod part;
mod places;
mod read;
mod rows;
mod station;
mod stations;
mod values;

pub use fault::{JobFault, JobKind};
pub use inline::inline_schedule;
pub use job::Job;
pub use pairs::Pairs;
pub use places::{Band, ChanPlace, ScanSpan};
pub use read::read_job;
pub use station::Station;
pub use stations::Stations;
