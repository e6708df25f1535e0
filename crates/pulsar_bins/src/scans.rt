//! The phase in the scans of a plan, and whether each of their samples has one.
ghost use Rattle.std.specs.Prelude.{◌≡◌, not, true, None, Some, MatchResult};
ghost use Rattle.std.specs.List.{All, position};
ghost use Rattle.delay_track.specs.{StationModel.{delay_model_of}, Track.{model_of}};
ghost use Rattle.job_plan.specs.Ranges.{IsPlan, IsScanPlan};
ghost use Rattle.pulsar_bins.specs.Scans.{has_phase, no_phase, phase_in_scan};

use crate::bins::Bins;
use crate::fault::NoPhase;
use delay_track::{StationModel, Track};
use job_plan::{Plan, Plan0, ScanPlan};

// What the phase in a scan depends on.
fn model_in<'a>(bins: &'a Bins, plan: &Plan, scan: &ScanPlan) -> StationModel<'a>
    requires plan { IsPlan plan.now }
    requires scan { IsScanPlan plan.now scan.now }
    ensures model { delay_model_of result ≡ phase_in_scan plan.now bins.now.phases scan.now }
    ensures samples { result.samples ≡ scan.now.samples }
{
    StationModel {
        polys: &bins.phases,
        clocks: bins.clocks(),
        second: i64::from(scan.second),
        rate: plan.rate,
        knot: plan.knot,
        samples: scan.samples,
    }
}

// Whether each sample of a scan has a phase.
fn has_phase(bins: &Bins, plan: &Plan, scan: &ScanPlan) -> bool
    requires plan { IsPlan plan.now }
    requires scan { IsScanPlan plan.now scan.now }
    ensures { result ≡ has_phase plan.now bins.now scan.now }
{
    model_in(bins, plan, scan).has_model()
}

/// The phase at each sample of a scan, as a delay without a clock, in units of 2^-32 turn.
pub fn phase_in<'a>(bins: &'a Bins, plan: &Plan, scan: &ScanPlan) -> Track<'a>
    requires plan { IsPlan plan.now }
    requires scan { IsScanPlan plan.now scan.now }
    requires covered { has_phase plan.now bins.now scan.now ≡ true }
    ensures model { model_of result ≡ phase_in_scan plan.now bins.now.phases scan.now }
    ensures samples { result.samples ≡ scan.now.samples }
{
    model_in(bins, plan, scan).track()
}

// The first scan in which a sample has no phase.
fn first_without(bins: &Bins, plan: &Plan, scans: &[ScanPlan]) -> Option<usize>
    requires plan { IsPlan plan.now }
    requires scans { All (IsScanPlan plan.now) scans.now }
    ensures { result ≡ position (λ scan. not (has_phase plan.now bins.now scan)) scans.now }
{
    for (i, scan) in scans.iter().enumerate() {
        if !has_phase(bins, plan, scan) {
            return Some(i);
        }
    }
    None
}

/// Whether each sample of the plan's scans has a phase: an entry is in force there, and the knot behind it is at most knot 2^24.
/// Else the first scan in which one has none.
#[tactic(auto, unfolding(crate::specs::Scans::no_phase))]
pub fn covers(bins: &Bins, plan: &Plan0) -> Result<(), NoPhase>
    ensures { MatchResult result (λ _. no_phase bins.now plan.now ≡ None) (λ fault. no_phase bins.now plan.now ≡ Some fault.scan) }
{
    let within = plan.plan();
    match first_without(bins, within, within.scans.items()) {
        None => Ok(()),
        Some(scan) => Err(NoPhase { scan }),
    }
}
