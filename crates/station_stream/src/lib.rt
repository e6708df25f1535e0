//! The values of a station's channels in a window of a scan: its recorded samples, taken as many samples on as the whole
//! delay says and turned by the sector of the delay. It stands on `frame_index` for the places of frames, on `delay_track` for
//! delays, on `fringe_turns` for the direction of a delay's sector, on `value_codes` for levels and values in bytes, on
//! `job_plan` for plans, and on a `Shelf` for the files, whose stretches `shelf_stretch` reads.
//!
//! Values are taken in two steps. The frames of a window are read sweep by sweep, a sweep being samples whose recorded ones lie close
//! together, with less than a frame between them: a window's slots of a thread are read one behind the other, once, for all its
//! channels. Then the bytes of a channel, a code for a sample, are filled out of the frames, all of them or those of a stretch of
//! samples; that step has no shelf and takes no memory. A `Stream` is both at once; `StayFrames` are the frames alone, of a station's
//! part in a scan of a plan, and `stay_stream` loads the stream of such a part. Bytes that are done with are room for others. Where
//! the shelf tells its content, the values are those of the definition in `specs/Part`, which are those of the plan's; a fault of a
//! read comes only where the shelf had one. (Thompson, Moran and Swenson, chapters 8 and 9.)
#![tactic(auto)]

mod chan;
mod fault;
mod frame_run;
mod levels;
mod part;
mod piece;
mod place;
mod recording;
mod room;
mod samples;
mod slot;
mod stay;
mod stay_frames;
mod stay_part;
mod stream;
mod sweep;
mod swept;
mod thread_frames;
mod threads;
mod turned;
mod window;

pub use chan::StationChan;
pub use fault::StreamFault;
pub use part::StationPart;
pub use recording::Recording;
pub use room::take_room;
pub use stay::stay_stream;
pub use stay_frames::StayFrames;
pub use stream::Stream;
