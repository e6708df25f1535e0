//! The correlator: the top call `run`, and what it is made of. It stands on `run_words` for the words, on `run_ready` for what
//! comes before the output, on `run_part` for that of a part of a job, on `plain_sums` for the cells of an integration, on
//! `journal_rounds` for the sums of a job or of a part in its journal, on `vis_writer` and `journal_records` for the records, on
//! `run_summary` for summaries, on `sample_gen`, `sample_job` and `gen_summary` for a generated job and its totals, on `run_notes`
//! for statuses and notes, and for each other command on the crate that appends its text.
//!
//! `run` reads a schedule, a job and the recordings, and does what its command says: it appends the record text over the direct
//! sums of their samples, in one go or by way of a journal that outlasts a crash, sums a part of them into such a journal, or
//! says what there is. Its clauses say when each status comes, what is appended with each, what is in the journal at every
//! moment, and what the notes get.
#![tactic(auto)]

mod check;
mod correlation;
mod engine;
pub mod laws;
mod order;
mod plain;
mod sample;
mod shard;
mod status;
mod sure_shelf;
mod top;

pub use engine::{correlate, emit, prepare, resume};
pub use top::run;
