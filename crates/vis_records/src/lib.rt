//! Record files: the head that says what was correlated, the writer of a head, the records in their order and an
//! end, the reader of a whole file, and the lines that show one. It stands on `corr_model` for the record text, on
//! `num_time` and `item_list` for what a head holds, on `byteorder` for numbers in bytes, and on `sink_text` for the
//! bytes on their way to a sink.
//!
//! Each call of the writer appends its text, or a first part of it where the sink fails, and takes no memory.
//! `read_all` gives the content of a record file, and refuses any other text for the first rule that it breaks, from
//! the front, at its place (`specs/Reading.antt`). A text is the record file of at most one content (`laws`). `dump`
//! appends the lines of a content (`specs/Dumped.antt`), or a first part of them, and takes no memory.
#![tactic(auto)]

mod fault;
mod head;
pub mod laws;
mod lines;
mod numbers;
mod read;
mod read_head;
mod read_records;
mod record_lines;
mod rest;
mod vis;
mod writer;

pub use fault::{VisFault, VisKind};
pub use head::{VisBaseline, VisHead, VisProduct, VisScan};
pub use lines::dump;
pub use numbers::{put_u32, put_u64};
pub use read::read_all;
pub use vis::Vis;
pub use writer::{
    SinkFault, end, put_cells, put_names, put_products, put_scans, write_end, write_head,
    write_record,
};
