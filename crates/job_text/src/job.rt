//! A job.
use crate::pairs::Pairs;
use crate::places::{Band, ScanSpan};
use crate::stations::Stations;
use named_list::Named;
use std::marker::Model;

/// A job: the number of lags, the samples of an integration and of an epoch and from one knot of a delay
/// to the next, and whether a station is correlated with itself. A job that states its scans itself has a
/// rate, in samples a second, scans and the bands of its channels. A product is the channel of a
/// baseline's first station and that of its second. Where there are `takes`, only the scans of these
/// names count. Each list is in the order of the lines.
#[derive(Drop)]
pub struct Job {
    pub lags: u32,
    pub integration: u64,
    pub epoch: u32,
    pub knot: u32,
    pub auto: bool,
    pub rate: Option<u32>,
    pub stations: Stations,
    pub products: Pairs,
    pub takes: Named<()>,
    pub scans: Named<ScanSpan>,
    pub bands: Named<Band>,
}

impl Model for Job {
    ghost use Rattle.job_text.specs.{Job.{JobFields}, Ranges.{IsJob}, Shown.{job_shown}};

    ghost Value = { JobFields };

    ghost view = { job_shown };

    ghost invariant = { λ job. IsJob (job_shown job) };
}
