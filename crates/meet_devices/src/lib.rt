//! A shelf, a disk and a gate in memory that show that reading and appending go on while sums are
//! taken. The gate's first piece and the first read past a place, once the disk has been written to,
//! wait for one another, and the gate tells whether each saw the other come. It stands on the devices
//! of `mem_devices`: what the shelf and the disk answer and hold is what those answer and hold, with no
//! call that is told to fail. That they met is in no contract. Another gate notes the worker of each
//! piece, and when it came; that is in no contract either.
#![tactic(auto)]

mod flags;
mod meet_disk;
mod meet_gate;
mod meet_shelf;
mod noting_gate;
mod start;
#[cfg(test)]
mod tests;

pub use meet_disk::MeetDisk;
pub use meet_gate::MeetGate;
pub use meet_shelf::MeetShelf;
pub use noting_gate::{NotingGate, Told};
pub use start::meet;
