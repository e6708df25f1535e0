//! Why a job and a schedule do not go together.
ghost use Rattle.std.specs.Prelude.{◌≡◌};
ghost use Rattle.job_join.specs.{KindName.{quantity_name, fault_name}, declared.fault.JoinFault.TheVariants.{Memory}};

use std::alloc::AllocError;
use thiserror::Error;
use variant_name::name_of;

/// A quantity that has a greatest value.
#[derive(Clone, Copy, Debug, PartialEq, Eq)]
pub enum Quantity {
    Stations,
    Products,
    Channels,
    Samples,
    Seconds,
    Cells,
    Load,
    Epochs,
    /// The bytes of a schedule.
    Schedule,
    /// The bytes of a job's text.
    Job,
    /// The bytes of a record file that is shown.
    Records,
    /// The slots of all recordings.
    Slots,
}

impl Quantity {
    /// The quantity's name, in small letters.
    pub fn name(self) -> &'static str
        ensures { result.now ≡ quantity_name self }
    {
        name_of!(self: Quantity {
            Stations => "stations", Products => "products", Channels => "channels", Samples => "samples", Seconds => "seconds", Cells => "cells",
            Load => "load", Epochs => "epochs", Schedule => "schedule", Job => "job", Records => "records", Slots => "slots"
        })
    }
}

/// The first cause for which a job and a schedule do not go together. A take, a station or a scan is given by its place,
/// counted from 0: the take's among the job's, the station's among the job's, the scan's in the schedule.
#[derive(Clone, Copy, Debug, PartialEq, Eq, Error)]
#[error("{}", self.name())]
pub enum JoinFault {
    /// The take names no scan of the schedule.
    UnknownScan(usize),
    /// The station is in no scan that is taken.
    UnknownStation(usize),
    /// In the scan a station has another sample rate than the job's first.
    RateDiffers(usize),
    /// In the scan a channel of a product has another band at a station than at the scan's first.
    ChannelDiffers(usize),
    /// In the scan the two channels of a product have different bands.
    ProductDiffers(usize),
    /// The sample rate is no multiple of the samples in one of the station's frames.
    FrameRate(usize),
    /// At some sample of a scan no polynomial of the station is in force, or the next knot is past 2^24.
    NoModel(usize),
    /// No clock entry of the station is in force where a polynomial begins that is in force in a scan.
    NoClock(usize),
    /// The quantity has this value, past its greatest.
    Limit(Quantity, u128),
    /// Out of memory.
    Memory,
}

impl JoinFault {
    /// The cause's name, as it is written above.
    pub fn name(self) -> &'static str
        ensures { result.now ≡ fault_name self }
    {
        name_of!(self: JoinFault {
            UnknownScan(_), UnknownStation(_), RateDiffers(_), ChannelDiffers(_), ProductDiffers(_), FrameRate(_), NoModel(_), NoClock(_), Limit(_, _), Memory
        })
    }
}

impl From<AllocError> for JoinFault {
    ghost from_gives = { λ _ fault. fault ≡ Memory };

    fn from(_: AllocError) -> Self {
        JoinFault::Memory
    }
}
