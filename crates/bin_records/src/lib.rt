//! The text of the cells of a pulse's bins: a head, the records in their order, an end. A record is one of a record file, and
//! has the number of its bin besides. It stands on `vis_records` for what a head says and for the fields that a record file
//! has too, on `corr_model` for their texts, and on `sink_text` for the bytes on their way to a sink. Each call
//! appends its text, or a first part of it where the sink fails, and takes no memory.
#![tactic(auto)]

mod head;
mod record;

pub use head::write_bin_head;
pub use record::{write_bin_end, write_bin_record};
