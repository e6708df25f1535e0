//! The epochs of a job.
ghost use Rattle.std.specs.Prelude.{◌≡◌, ◌^◌, ◌<◌, ◌≤◌, length, slice_get, Some, IfOk};

use crate::EpochPlan;
use crate::limit::{integrations_in, limited_scan};
use crate::numbering::{epoch_in, epochs_in, first_above, number_before};
use std::alloc::{AllocError, Global};
use std::marker::Model;

/// The size of a scan as far as it belongs to a job: the number of its first integration, its length in
/// samples up to the last one that does, and how many products and baselines it has.
#[derive(Clone, Copy, Debug, PartialEq, Eq)]
pub struct ScanSize {
    pub first: u64,
    pub samples: u64,
    pub products: u32,
    pub baselines: u32,
}

/// The epochs of a job, numbered from 0 through all scans and integrations. It keeps the scans' sizes,
/// and for each scan the number of epochs up to its end.
#[derive(Drop)]
pub struct JobPlan {
    scans: Vec<ScanSize>,
    ends: Vec<u64>,
    integration: u64,
    epoch: u64,
    lags: u32,
}

impl Model for JobPlan {
    ghost use Rattle.piece_plan.specs.{Epochs.{JobSizes, IsJob, job_sizes}, Counts.{AreEnds}};

    ghost Value = { JobSizes };

    ghost view = { λ p. job_sizes p.scans.items p.integration p.epoch p.lags };

    ghost invariant = { λ p. IsJob (job_sizes p.scans.items p.integration p.epoch p.lags)
        × AreEnds (job_sizes p.scans.items p.integration p.epoch p.lags) p.ends.items };
}

impl JobPlan {
    ghost use Rattle.piece_plan.specs.{Epochs.{IsJob, job_sizes, epochs_of, IsEpoch, IsOfPlan}, Order.{CoverJob}, Limited.{integrations, limited}};

    /// The epochs of these scans, at most 2^23, of up to 2^40 samples each: each scan is cut into
    /// integrations of so many samples, 1 to 2^36, and each of these from the scan's first one on into
    /// epochs of so many samples, 1 to 4,194,304. `lags` is even, 2 to 1,024; each scan has a product and
    /// a baseline, and at most 4,194,304 cells.
    pub fn new(
        alloc: Global,
        scans: &[ScanSize],
        integration: u64,
        epoch: u64,
        lags: u32,
    ) -> Result<JobPlan, AllocError>
        requires { IsJob (job_sizes scans.now integration epoch lags) }
        ensures { IfOk result (λ p. p ≡ job_sizes scans.now integration epoch lags) }
    {
        let mut ends = Vec::new(alloc);
        let mut end = 0;
        for size in scans {
            end += epochs_in(size.samples - size.first * integration, integration, epoch);
            ends.push(end)?;
        }
        Ok(JobPlan {
            scans: scans.to_vec(alloc)?,
            ends,
            integration,
            epoch,
            lags,
        })
    }

    /// The sizes of the scans, in order.
    pub fn scans(&self) -> &[ScanSize]
        ensures sizes { result.now ≡ self.now.scans }
        ensures job { IsJob self.now }
    {
        &self.scans
    }

    /// The samples of an integration.
    pub fn integration(&self) -> u64
        ensures samples { result ≡ self.now.integration }
        ensures job { IsJob self.now }
    {
        self.integration
    }

    /// The number of lags.
    pub fn lags(&self) -> u32
        ensures many { result ≡ self.now.lags }
        ensures job { IsJob self.now }
    {
        self.lags
    }

    /// The number of epochs. They go through the job in order, from its first sample to its last.
    pub fn epochs(&self) -> u64
        ensures many { result ≡ length (epochs_of self.now) }
        ensures cover { CoverJob self.now (epochs_of self.now) }
        ensures job { IsJob self.now }
        ensures bound { result ≤ 2 ^ 63 }
    {
        let scans = self.ends.len();
        if scans == 0 { 0 } else { self.ends[scans - 1] }
    }

    /// Epoch `i`, counted from 0 through all scans and integrations.
    pub fn epoch(&self, i: u64) -> EpochPlan
        requires { i < length (epochs_of self.now) }
        ensures at { slice_get (epochs_of self.now) i ≡ Some result }
        ensures inside { IsEpoch self.now result }
        ensures of_plan { IsOfPlan result }
    {
        let scan = first_above(&self.ends, i);
        let before = number_before(&self.ends, scan);
        let size = self.scans[scan];
        epoch_in(
            scan as u32,
            &size,
            self.integration,
            self.epoch,
            self.lags,
            i - before,
        )
    }

    /// The number of integrations of all scans.
    pub fn integrations(&self) -> u64
        ensures many { result ≡ integrations self.now }
        ensures bound { result ≤ 2 ^ 63 }
    {
        let mut count = 0;
        for size in &self.scans {
            count += integrations_in(size, self.integration);
        }
        count
    }

    /// The same job with those integrations alone that have a number from `from` up to, not including,
    /// `to`, counted from 0 through all scans. Scans and integrations keep their numbers.
    pub fn limited(&self, alloc: Global, from: u64, to: u64) -> Result<JobPlan, AllocError>
        ensures { IfOk result (λ p. p ≡ limited self.now from to) }
    {
        let mut scans = Vec::new(alloc);
        let mut first = from;
        let mut end = to;
        for size in &self.scans {
            let count = integrations_in(size, self.integration);
            scans.push(limited_scan(size, self.integration, first, end.min(count)))?;
            first = first.saturating_sub(count);
            end = end.saturating_sub(count);
        }
        JobPlan::new(alloc, &scans, self.integration, self.epoch, self.lags)
    }
}
