//! A channel of a station.

/// Where a station records a channel, in the frames of a thread and at a place in their complete samples, and the sky
/// frequency in hertz at the edge of the channel's band, which goes up from there or down.
#[derive(Clone, Copy, Debug, PartialEq, Eq)]
pub struct StationChan {
    pub thread: u16,
    pub index: u32,
    pub hertz: u64,
    pub upper: bool,
}
