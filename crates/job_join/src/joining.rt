//! A job and a schedule, and why they do not go together.
ghost use Rattle.std.specs.Prelude.{◌≡◌, ◌∷◌, [], option_map, IfOk};
ghost use Rattle.scan_list.specs.Sound.{AreScans};
ghost use Rattle.job_join.specs.{Joined.{first_there}, Standing.{unknown_scan, unknown_station}, Differing.{rate_differs, channel_differs, product_differs, frame_rate}};

use crate::channels::{channel_differs, channels_of, product_differs};
use crate::fault::JoinFault;
use crate::frames::frame_rate;
use crate::names::scan_names;
use crate::parts::{products, stations, takes};
use crate::places::{Place, keys_of, places_of, unknown_station};
use crate::rates::{rate_differs, rate_of};
use crate::takes::unknown_take;
use job_text::Job;
use named_list::Named;
use scan_list::Scan;
use std::alloc::{AllocError, Global};

/// A job, the scans of a schedule with the job's stations in them, the names of these scans, the keys of the stations of those
/// that are taken, the channels of the job's products in the order of their first use, and the job's sample rate.
pub(crate) struct Joining<'a> {
    pub job: &'a Job,
    pub places: Vec<Place<'a>>,
    pub scan_names: Named<()>,
    pub station_keys: Named<()>,
    pub channels: Named<()>,
    pub rate: u32,
}

// Written out, so that a function that drops one calls this, and does not drop it field by field.
impl Drop for Joining<'_> {
    fn drop(self) {
        let Joining {
            job: _,
            places: _,
            scan_names: _,
            station_keys: _,
            channels: _,
            rate: _,
        } = self;
    }
}

impl<'a> Joining<'a> {
    ghost use Rattle.job_join.specs.Joining.{scans_of, IsJoining, early_of};

    /// A job and the scans of a schedule.
    pub(crate) fn new(alloc: Global, job: &'a Job, scans: &'a [Scan]) -> Result<Self, AllocError>
        requires { AreScans scans.now }
        ensures joining { IfOk result IsJoining }
        ensures job { IfOk result (λ j. j.job.now ≡ job.now) }
        ensures scans { IfOk result (λ j. scans_of j ≡ scans.now) }
    {
        let places = places_of(alloc, job, scans)?;
        let scan_names = scan_names(alloc, scans)?;
        let station_keys = keys_of(alloc, &places)?;
        let channels = channels_of(alloc, products(job))?;
        let rate = rate_of(&places);
        Ok(Joining {
            job,
            places,
            scan_names,
            station_keys,
            channels,
            rate,
        })
    }

    // Where a `take` line names no scan.
    fn unknown_take(&self) -> Option<JoinFault>
        requires { IsJoining self.now }
        ensures { result ≡ option_map JoinFault.UnknownScan (unknown_scan self.now.job.now (scans_of self.now)) }
    {
        match unknown_take(takes(self.job), &self.scan_names) {
            None => None,
            Some(i) => Some(JoinFault::UnknownScan(i)),
        }
    }

    // Where a station is in no scan that is taken.
    fn unknown_station(&self) -> Option<JoinFault>
        requires { IsJoining self.now }
        ensures { result ≡ option_map JoinFault.UnknownStation (unknown_station self.now.job.now (scans_of self.now)) }
    {
        match unknown_station(stations(self.job), &self.station_keys) {
            None => None,
            Some(i) => Some(JoinFault::UnknownStation(i)),
        }
    }

    // Where a station has another sample rate than the job's.
    fn rate_differs(&self) -> Option<JoinFault>
        requires { IsJoining self.now }
        ensures { result ≡ option_map JoinFault.RateDiffers (rate_differs self.now.job.now (scans_of self.now)) }
    {
        match rate_differs(&self.places, self.rate) {
            None => None,
            Some(i) => Some(JoinFault::RateDiffers(i)),
        }
    }

    // Where a channel differs at two stations of a scan.
    fn channel_differs(&self) -> Option<JoinFault>
        requires { IsJoining self.now }
        ensures { result ≡ option_map JoinFault.ChannelDiffers (channel_differs self.now.job.now (scans_of self.now)) }
    {
        match channel_differs(&self.places, &self.channels) {
            None => None,
            Some(i) => Some(JoinFault::ChannelDiffers(i)),
        }
    }

    // Where the channels of a product differ in a scan.
    fn product_differs(&self) -> Option<JoinFault>
        requires { IsJoining self.now }
        ensures { result ≡ option_map JoinFault.ProductDiffers (product_differs self.now.job.now (scans_of self.now)) }
    {
        match product_differs(&self.places, products(self.job)) {
            None => None,
            Some(i) => Some(JoinFault::ProductDiffers(i)),
        }
    }

    // Where a station's frames do not go into a second.
    #[tactic(auto, unfolding(crate::specs::Differing::frame_rate))]
    fn frame_rate(&self) -> Option<JoinFault>
        requires { IsJoining self.now }
        ensures { result ≡ option_map JoinFault.FrameRate (frame_rate self.now.job.now (scans_of self.now)) }
    {
        match frame_rate(stations(self.job), self.rate) {
            None => None,
            Some(i) => Some(JoinFault::FrameRate(i)),
        }
    }

    /// The first cause among those that ask for no delay and for no size.
    pub(crate) fn early(&self) -> Option<JoinFault>
        requires { IsJoining self.now }
        ensures { result ≡ early_of self.now.job.now (scans_of self.now) }
    {
        let take = self.unknown_take();
        let station = self.unknown_station();
        let rate = self.rate_differs();
        let channel = self.channel_differs();
        let product = self.product_differs();
        let frame = self.frame_rate();
        first_of(take, station, rate, channel, product, frame)
    }
}

// The first of six causes.
fn first_of(
    take: Option<JoinFault>,
    station: Option<JoinFault>,
    rate: Option<JoinFault>,
    channel: Option<JoinFault>,
    product: Option<JoinFault>,
    frame: Option<JoinFault>,
) -> Option<JoinFault>
    ensures { result ≡ first_there (take ∷ station ∷ rate ∷ channel ∷ product ∷ frame ∷ []) }
{
    take.or(station).or(rate).or(channel).or(product).or(frame)
}
