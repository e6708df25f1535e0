//! The journals of a job's parts, merged. It stands on `checkpoint_journal` for what a journal keeps, on `shelf_file` to read one from a
//! shelf, on `piece_plan` for the integrations, and on `vis_writer` for the record file. `read_shard` lists the epochs that a journal
//! keeps; `compare` looks whether each integration is covered by one at least, and whether all that cover it have the same cells in it;
//! `write_merged` appends the record file, each integration from the first journal that covers it. Cells are read where they stand, one
//! integration at a time.
#![tactic(auto)]

mod cells;
mod comparison;
mod coverage;
mod fault;
pub mod laws;
mod listing;
mod parts;
mod shard;
mod writer;

pub use comparison::compare;
pub use fault::{CellsDiffer, MergeFault, OutputFault, ShardFault};
pub use parts::part;
pub use shard::{Shard, read_shard};
pub use writer::write_merged;
