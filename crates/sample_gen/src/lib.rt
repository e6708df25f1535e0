//! Generated recordings: the words of a seed as the frames of four stations, with some frames left out, marked invalid
//! or doubled, and the job that correlates them. It stands on `rand_xoshiro` for the words, on `vdif_frame` for headers,
//! and on `sink_text` for the bytes on their way to a sink.
//!
//! Each word is one of the seed's, by its number from the first word of the first station on, so a recording depends on
//! the seed, the seconds and the station alone. `generate` appends its recording, or a first part of it where the sink
//! fails, and takes no memory.
#![tactic(auto)]

mod frame;
mod job;
mod recording;
mod words;

pub use job::job_text;
pub use recording::generate;
