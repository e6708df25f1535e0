//! The definitions of the correlation, and the plain program for the least of them: the cell of a lag as a
//! direct sum over sample numbers. The slots of a recording, the sample that they hold and the record text
//! are defined here and computed in the crates above. No definition knows an index, a window or an order
//! of reading. It stands on `vdif_frame` for headers and on `sample_unpack` for the levels of codes, and
//! takes no memory.
//! (VDIF 1.1.1; Thompson, Moran and Swenson, chapters 8 and 9.)
#![tactic(auto)]

mod cell;
mod plain;
mod records;
mod values;

pub use cell::{Cell, Pair};
pub use plain::plain_cell;
pub use records::RecordAt;
pub use values::Values;
