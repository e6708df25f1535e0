//! The sums of the epochs of a job that is ready. It stands on `ready_job` for the job, on `station_stream` for the frames of an
//! epoch's stations in a window around it and for their values, and on `epoch_run` for their planes and for the workers. The sums are
//! those of the definition, whatever the number of workers and the length of a piece, and wherever the epoch begins and however long
//! it is. Frames are read whole by one thread, which has the shelf; planes are made of them by threads that share the stations, their
//! channels and stretches of their samples, in room of epochs that are over. A call fails for want of memory, or for a read of the
//! shelf.
#![tactic(auto)]

mod epochs;
mod frames;
mod made;
mod make;
mod making;
mod pairs;
mod parts;
mod reached;
mod read;
mod spare;
mod summed;
mod sums;
mod values;
mod window;

pub use epochs::scan_of;
pub use frames::EpochFrames;
pub use make::make_epoch;
pub use reached::reach_epoch;
pub use read::read_epoch;
pub use spare::Spare;
pub use summed::{correlate, is_of_job};
pub use sums::sum;
pub use values::EpochValues;
