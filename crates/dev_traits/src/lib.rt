//! The devices of the correlator, as traits: a `Shelf` of files that are read by name and place, a
//! `Disk`, which is one file that is read and written by place, and a `Sink` that bytes are appended
//! to. It stands on std alone.
//!
//! Each device has a count of faults that never falls. A call answers `Failed` only where the count
//! rose in it, so code over a device cannot report a fault that its device did not have. What a
//! device holds is told by the devices in memory and not by those of the operating system; clauses
//! about content hold where it is told.
//!
//! A disk that tells its content also tells what a crash may leave of it at each moment, so that what
//! is written can be proved to outlast one.
#![tactic(auto)]

mod disk;
mod gate;
mod shelf;
mod sink;

pub use disk::Disk;
pub use gate::Gate;
pub use shelf::Shelf;
pub use sink::{Sink, write_all};

/// A call of a device that failed. The device's count of faults rose in that call.
#[derive(Clone, Copy, Debug, PartialEq, Eq)]
pub struct Failed;
