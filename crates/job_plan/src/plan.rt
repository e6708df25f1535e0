//! Plans, as they are kept.
ghost use Rattle.std.specs.Prelude.{◌≡◌};
ghost use Rattle.job_plan.specs.Ranges.{IsPlan};

use delay_poly::PolyList;
use item_list::ItemList;
use num_time::Name;
use station_clock::ClockList;
use std::marker::Model;
use vdif_frame::Shape;

/// Where a recording holds a channel: in the frames of a thread, at a place in their complete samples.
#[derive(Clone, Copy, Debug, PartialEq, Eq)]
pub struct Recorded {
    pub thread: u16,
    pub index: u32,
}

/// A station: its key, the shape of its frames, the names of its files in their order, where it has each of the
/// job's channels, and its polynomials and clock entries.
#[derive(Drop)]
pub struct StationPlan {
    pub key: Name,
    pub shape: Shape,
    pub files: ItemList<Name>,
    pub chans: ItemList<Option<Recorded>>,
    pub polys: PolyList,
    pub clocks: ClockList,
}

/// A channel's sky frequency in hertz, and whether it is the upper sideband.
#[derive(Clone, Copy, Debug, PartialEq, Eq)]
pub struct Band {
    pub hertz: u64,
    pub upper: bool,
}

/// A station's part of a scan: the samples from `from` up to, not including, `to`, and each channel's band, None where
/// the station lacks the channel in the scan. Stations and channels go by their numbers in the job.
#[derive(Debug, Drop)]
pub struct StayPlan {
    pub station: u32,
    pub from: u64,
    pub to: u64,
    pub bands: ItemList<Option<Band>>,
}

/// Two channels, by their numbers: that of a baseline's first station and that of its second.
#[derive(Clone, Copy, Debug, PartialEq, Eq)]
pub struct ProductPlan {
    pub x: u32,
    pub y: u32,
}

/// Two stations, by their numbers.
#[derive(Clone, Copy, Debug, PartialEq, Eq)]
pub struct BaselinePlan {
    pub a: u32,
    pub b: u32,
}

/// A scan: its name, the second from 1970-01-01 on at which it starts, its length in samples, its stations' parts in
/// the order of the stations' numbers, and its baselines, by the first station and then by the second.
#[derive(Debug, Drop)]
pub struct ScanPlan {
    pub name: Name,
    pub second: u32,
    pub samples: u64,
    pub stays: ItemList<StayPlan>,
    pub baselines: ItemList<BaselinePlan>,
}

/// A job: the number of lags, the samples in an integration, in an epoch, in a second and from one knot of a delay to
/// the next, the stations, the channels' names, the products and the scans, each in order.
#[derive(Drop)]
pub struct Plan {
    pub lags: u32,
    pub integration: u64,
    pub epoch: u64,
    pub rate: u32,
    pub knot: u32,
    pub stations: ItemList<StationPlan>,
    pub channels: ItemList<Name>,
    pub products: ItemList<ProductPlan>,
    pub scans: ItemList<ScanPlan>,
}

/// A plan all of whose numbers and names are in their ranges, and whose stations have a delay model and a clock at each
/// sample of the scans in which they stand.
#[derive(Drop)]
pub struct Plan0 {
    plan: Plan,
}

impl Model for Plan0 {
    ghost use Rattle.job_plan.specs.{declared.plan.Plan.{Plan}, Ranges.{IsPlan}};

    ghost Value = { Plan };

    ghost view = { λ p. p.plan };

    ghost invariant = { λ p. IsPlan p.plan };
}

impl Plan0 {
    /// The plan as one in its ranges.
    pub fn new(plan: Plan) -> Plan0
        requires { IsPlan plan }
        ensures { result ≡ plan }
    {
        Plan0 { plan }
    }

    /// The plan.
    pub fn plan(&self) -> &Plan
        ensures same { result.now ≡ self.now }
        ensures ranges { IsPlan self.now }
    {
        &self.plan
    }
}
