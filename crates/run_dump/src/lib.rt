//! Record files by their names, and the command that shows one: the file under a name is read, and its lines are appended to the
//! output. It stands on `run_ready` for the file's bytes, on `vis_records` for their content and its lines, and on `run_notes` for refusals.
//!
//! `specs/Shown` says what the file under a name comes to: the content of a record file, or the answer of the first thing that is
//! wrong. A file comes to one of these and no other (`laws`).
#![tactic(auto)]

pub mod laws;
mod load;
mod show;

pub use load::load_records;
pub use show::show_records;
