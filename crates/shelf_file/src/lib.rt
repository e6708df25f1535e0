//! One file of a shelf, as a disk that is only read. It stands on `dev_traits` for both.
#![tactic(auto)]

mod file;

pub use file::ShelfFile;
