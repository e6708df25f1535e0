//! What a command has before its output: the schedule and the job are read, joined to a plan, and each station's recording is
//! indexed. It stands on `vex_reader`, `vex_schedule`, `job_text` and `job_join` for the plan, on `job_epochs` for its epochs,
//! on `checkpoint_journal` for the job's identity, on `frame_index` for the indexes, on a `Shelf` for the files, and on
//! `run_notes` for refusals. `join` ends before the recordings are looked at, `survey` before they are looked into, `prepare` behind
//! that. A caller with a step of its own between these takes up what it has by `survey_joined`, `index_survey` or both,
//! `load_recordings`.
//!
//! `specs/Outcome` says what a job comes to: its plan, or the answer of the first thing that is wrong, in the order of the
//! steps. A job comes to one of these and no other, and to the same plan whatever length of an epoch is asked for (`laws`).
#![tactic(auto)]

mod identity;
mod indexes;
mod job;
pub mod laws;
mod ready;
mod recordings;
mod refusals;
mod scans;
mod surveys;
mod texts;

pub use job::{Joined, join};
pub use ready::{index_survey, load_recordings, prepare, survey};
pub use recordings::StationFiles;
pub use surveys::{Survey, survey_joined};
pub use texts::{file_size, load_text};
