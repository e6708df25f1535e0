//! The journal of a job whose records carry the range of their epoch, on a disk. It stands on `dev_traits` for the disk
//! and the images that a crash may leave of it, on `journal_image` for what the bytes of such a journal say, and on
//! `plan_places` for the places where epochs begin. A file is read from its front, record by record, and one of another
//! job is told by the first place that differs. At every moment of an opening each image that a crash may leave keeps the
//! epochs that were kept before it, and at every moment of an append these, or these and the new one. An old journal gets a
//! mark at its opening, behind which records carry their range. Which part of a job a file is the journal of is read from
//! its front, and the epochs that a journal keeps are listed with the places of their cells, so that cells can be read in any
//! order.
#![tactic(auto)]

mod append;
mod begin;
mod body;
mod cells;
mod cursor;
mod fault;
mod finding;
mod front;
mod identity;
mod journal;
mod listed;
mod next;
mod open;
mod opening;
mod part;
mod reader;
mod record;
mod seen;
mod walk;
mod writer;

pub use body::body_cells;
pub use fault::{AppendFault, ListFault, OpenFault, ReadFault};
pub use finding::{Finding, Found};
pub use identity::{Identity, job_identity, shard_identity};
pub use journal::Journal;
pub use listed::{KeptAt, list_kept, read_cells};
pub use part::{PartFound, find_part};
pub use reader::find;
pub use seen::Seen;
