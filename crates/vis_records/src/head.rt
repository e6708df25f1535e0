//! What a record file says of its correlation.
ghost use Rattle.std.specs.Prelude.{◌≡◌, map};
ghost use Rattle.corr_model.specs.Records.{IsHead};
ghost use Rattle.vis_records.specs.Heads.{head_from, product_of, scan_of};

use item_list::ItemList;
use num_time::Name;
use std::marker::Model;

/// Two channels, by their names: that of a baseline's first station and that of its second.
#[derive(Debug, Drop)]
pub struct VisProduct {
    pub x: Name,
    pub y: Name,
}

/// Two stations, by their places in the head, counted from 0.
#[derive(Clone, Copy, Debug, PartialEq, Eq)]
pub struct VisBaseline {
    pub a: u32,
    pub b: u32,
}

/// A scan: its name, the second from 1970-01-01 on at which it starts, its length in samples, and its
/// baselines.
#[derive(Debug, Drop)]
pub struct VisScan {
    pub name: Name,
    pub second: u64,
    pub samples: u64,
    pub baselines: ItemList<VisBaseline>,
}

/// The head of a record file: the number of lags, an integration's length in samples, the samples in a second,
/// the stations' keys, the products and the scans. All are in their ranges, and each scan's baselines rise by
/// the first station, then by the second.
#[derive(Debug, Drop)]
pub struct VisHead {
    lags: u32,
    integration: u64,
    rate: u64,
    stations: ItemList<Name>,
    products: ItemList<VisProduct>,
    scans: ItemList<VisScan>,
}

impl Model for VisHead {
    ghost use Rattle.corr_model.specs.Records.{Head, IsHead};
    ghost use Rattle.vis_records.specs.Heads.{head_from};

    ghost Value = { Head };

    ghost view = { λ h. head_from h.lags h.integration h.rate h.stations h.products h.scans };

    ghost invariant = { λ h. IsHead (head_from h.lags h.integration h.rate h.stations h.products h.scans) };
}

impl VisHead {
    /// The head of these numbers and lists: an even number of lags from 2 to 1,024, an integration of 1 to 2^36
    /// samples, a rate of 1 to 2^32 - 1, 1 to 32 stations, 1 to 256 products and fewer than 2^32 scans, each with
    /// 1 to 528 baselines; every name has 1 to 255 bytes.
    pub fn new(
        lags: u32,
        integration: u64,
        rate: u64,
        stations: ItemList<Name>,
        products: ItemList<VisProduct>,
        scans: ItemList<VisScan>,
    ) -> VisHead
        requires { IsHead (head_from lags integration rate stations products scans) }
        ensures { result ≡ head_from lags integration rate stations products scans }
    {
        VisHead {
            lags,
            integration,
            rate,
            stations,
            products,
            scans,
        }
    }

    /// How many lags a record has: an even number.
    pub fn lags(&self) -> u32
        ensures { result ≡ self.now.lags }
    {
        self.lags
    }

    /// An integration's length in samples.
    pub fn integration(&self) -> u64
        ensures { result ≡ self.now.integration }
    {
        self.integration
    }

    /// The samples in a second.
    pub fn rate(&self) -> u64
        ensures { result ≡ self.now.rate }
    {
        self.rate
    }

    /// The stations' keys.
    pub fn stations(&self) -> &[Name]
        ensures stations { result.now ≡ self.now.stations }
        ensures head { IsHead self.now }
    {
        self.stations.items()
    }

    /// The products.
    pub fn products(&self) -> &[VisProduct]
        ensures products { map product_of result.now ≡ self.now.products }
        ensures head { IsHead self.now }
    {
        self.products.items()
    }

    /// The scans.
    pub fn scans(&self) -> &[VisScan]
        ensures scans { map scan_of result.now ≡ self.now.scans }
        ensures head { IsHead self.now }
    {
        self.scans.items()
    }
}
