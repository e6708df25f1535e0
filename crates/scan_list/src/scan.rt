//! Scans, and what each station does in them.
use crate::chans::ChanList;
use item_list::ItemList;
use num_time::Name;

/// A channel that a station records.
#[derive(Debug, Drop)]
pub struct Chan {
    /// The name by which a job finds it, without the `&` of its link.
    pub id: Name,
    /// The sky frequency at the edge of its band, in hertz.
    pub hertz: u64,
    /// The band goes up from there, and else down.
    pub upper: bool,
    /// The bandwidth, in hertz.
    pub band_hertz: u64,
}

/// A station's part in a scan.
#[derive(Debug, Drop)]
pub struct Pass {
    /// The station's key.
    pub key: Name,
    /// When it starts and when it stops, in microseconds from the scan's start on.
    pub from_us: i64,
    pub to_us: i64,
    /// How many samples it takes, where a schedule counts them; None in a schedule from VEX.
    pub samples: Option<u64>,
    /// Its samples a second.
    pub rate: u32,
    /// The channels of its setup, which it shares with the other stations that have it.
    pub chans: ChanList,
}

/// A scan: the stations that observe together from a second on.
#[derive(Debug, Drop)]
pub struct Scan {
    pub name: Name,
    /// When it starts, counted from 1970-01-01 00:00 with days of 86,400 seconds.
    pub second: i64,
    pub passes: ItemList<Pass>,
}
