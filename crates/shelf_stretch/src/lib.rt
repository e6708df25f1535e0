//! A stretch of a file, read whole: the one loop over the reads of a `Shelf`. It stands on `dev_traits` alone.
//!
//! Bytes that the shelf does not give are zero, whatever the buffer held before, and how many it gave is answered. Where
//! the shelf tells its content, the buffer is the stretch of the file that `specs/Stretch` defines; a fault comes only
//! where the shelf had one.
#![tactic(auto)]

mod front;
mod read;

pub use read::read_stretch;
