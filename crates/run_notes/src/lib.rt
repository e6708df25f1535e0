//! Why a call of the program is refused, the status that it answers then, and its line on the notes. It stands on the crates
//! whose faults it names (`run_words`, `vex_reader`, `vex_schedule`, `job_text`, `job_join`, `vdif_frame`, `vis_records`, `journal_image`,
//! `pulsar_bins`) and on `sink_text` for the line. A refusal is want of memory, a verdict on what the call was given, or the fault of a device; `specs/` says
//! which status and which line each has. Only the making of a refusal with a name takes memory.
#![tactic(auto)]

mod measure;
mod notes;
mod refusal;

pub use measure::Measure;
pub use notes::{status, write_note};
pub use refusal::{Due, Refusal};
