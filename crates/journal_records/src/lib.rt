//! The record file of a job, from the journal that keeps its epochs, which may differ in length. It stands on `checkpoint_journal` for
//! the journal, and on `vis_records` and `vis_writer` for the record file. The file is written integration by integration, each
//! from the epochs of it, one of which is in memory at a time.
#![tactic(auto)]

mod fault;
pub mod laws;
mod sums;
mod writer;

pub use fault::EmitFault;
pub use writer::emit;
