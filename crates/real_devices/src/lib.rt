//! Devices of the operating system, one of each kind of `dev_traits`. They count their faults and do
//! not tell their content, since no contract can speak of the files and streams of a system.
#![tactic(auto)]

mod begun;
mod file_disk;
mod file_id;
mod file_shelf;
mod held_streams;
mod named_files;
mod path_name;
mod placed_file;
mod std_sink;

pub use file_disk::FileDisk;
pub use file_id::FileId;
pub use file_shelf::FileShelf;
pub use held_streams::HeldStreams;
pub use named_files::{Kind, NamedFiles, SystemFiles};
pub use placed_file::{PlacedFile, read_full};
pub use std_sink::StdSink;
