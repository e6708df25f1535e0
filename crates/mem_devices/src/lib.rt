//! Devices in memory, one of each kind of `dev_traits`. They tell their content, and fail at the
//! calls that they are told to; besides only a call that finds no memory fails, one that writes,
//! cuts or syncs, and `refused` says so. Gates are here too; what they count is in no contract.
#![tactic(auto)]

mod gates;
mod mem_disk;
#[cfg(test)]
mod mem_disk_tests;
mod mem_shelf;
mod mem_sink;
mod read;
#[cfg(test)]
mod tests;

pub use gates::{CountingGate, HoldGate, OpenGate};
pub use mem_disk::MemDisk;
pub use mem_shelf::MemShelf;
pub use mem_sink::MemSink;
