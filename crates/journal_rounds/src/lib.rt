//! The journal of a job that is ready, or of a part of one, brought to the end of that part: it is opened, and from the place on where
//! it ends the part is cut into epochs of a length that may be another one than before, whose sums are appended. It stands on
//! `run_sums` for the sums of an epoch, on `plan_places` for the places where epochs begin, and on `checkpoint_journal` for the file.
//! An epoch is appended while the next one is summed, and the frames of the one behind that are read and its planes made. At every moment
//! each image that a crash may leave keeps what was kept, and behind it the sums of the epochs from there on and nothing else.
#![tactic(auto)]

mod ahead;
mod epochs;
mod fault;
mod rest;
mod rounds;
mod spread;
mod sums;
mod values;

pub use fault::ResumeFault;
pub use rest::resume;
