//! The index of a station's frames: where, in the station's files, the first slot stands that holds the frame
//! of a thread, a second and a number, and how many slots are doubled, invalid, foreign or late. It stands on
//! `corr_model` for the slots of files and the frames in them, on `vdif_frame` for headers, and on a `Shelf`
//! for the files, of which it reads headers alone where frames are long.
//!
//! Where the shelf tells its content, the index is that of the definitions in `specs/`, for every shape and
//! all files; a fault of a read comes only where the shelf had one. A look-up takes no memory, and a number of
//! steps that grows as the logarithm of the number of frames. (VDIF 1.1.1, data frame header.)
#![tactic(auto)]

mod build;
mod builder;
mod counts;
mod fault;
mod frame;
mod frames;
mod heads;
mod index;
mod latest;
mod recording;
mod slot;
mod valid;

pub use counts::Counts;
pub use fault::IndexFault;
pub use frame::SlotAt;
pub use index::Index;
pub use recording::FileRef;
