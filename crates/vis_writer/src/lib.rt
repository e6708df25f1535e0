//! The records of a record file, integration by integration. A `CellSource` gives the cells of one integration at a
//! time; `write_records` appends the head, every record in its order and the end. It stands on `vis_records` for the
//! text, on `corr_model` for cells, on `job_plan` for what a plan comes to, and on `dev_traits` and `sink_text` for the
//! sink. All of the text is appended, or with a fault a first part of it; the fault is the source's or the sink's, and
//! no call but `head_of_plan` takes memory.
#![tactic(auto)]

mod fault;
mod head;
pub mod laws;
mod records;
mod source;
mod writer;

pub use fault::WriteFault;
pub use head::head_of_plan;
pub use records::{record_count, widest};
pub use source::CellSource;
pub use writer::{sunk, write_integration_at, write_records};
