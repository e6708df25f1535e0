//! What the lines of channels, scans and bands say of the thing that they name.

/// Where a station records a channel: the thread, and the channel's place in a complete sample.
#[derive(Clone, Copy, Debug, PartialEq, Eq)]
pub struct ChanPlace {
    pub thread: u16,
    pub index: u32,
}

/// The second at which a scan starts, counted from 1970-01-01 00:00, and its length in samples.
#[derive(Clone, Copy, Debug, PartialEq, Eq)]
pub struct ScanSpan {
    pub second: i64,
    pub samples: u64,
}

/// The sky frequency at a band's edge, in hertz, and whether the band goes up from there or else down.
#[derive(Clone, Copy, Debug, PartialEq, Eq)]
pub struct Band {
    pub hertz: u64,
    pub upper: bool,
}
