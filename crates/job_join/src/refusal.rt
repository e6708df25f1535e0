//! Why a job and a schedule do not go together.
ghost use Rattle.std.specs.Prelude.{◌≡◌, ◌<◌, None, Some, IfErr, OnOk};
ghost use Rattle.scan_list.specs.Sound.{AreScans};
ghost use Rattle.job_join.specs.{Joined.{refusal_of}, Joining.{scans_of, IsJoining, late_of}};

use crate::fault::JoinFault;
use crate::joining::Joining;
use crate::limits::limit;
use crate::modelled::lacking;
use crate::reach::Need;

// The first cause among those that ask for delays and for sizes.
fn late(j: &Joining, epoch: u64) -> Option<JoinFault>
    requires joining { IsJoining j.now }
    requires scans { AreScans (scans_of j.now) }
    requires rate { 0 < j.now.rate }
    requires epoch { 0 < epoch }
    ensures { result ≡ late_of j.now.job.now epoch (scans_of j.now) }
{
    if let Some(station) = lacking(Need::Delay, j) {
        return Some(JoinFault::NoModel(station));
    }
    if let Some(station) = lacking(Need::Clock, j) {
        return Some(JoinFault::NoClock(station));
    }
    match limit(j, epoch) {
        None => None,
        Some((quantity, value)) => Some(JoinFault::Limit(quantity, value)),
    }
}

// The first cause for which a job and the scans of a schedule do not go together.
fn refusal(j: &Joining, epoch: u64) -> Option<JoinFault>
    requires joining { IsJoining j.now }
    requires scans { AreScans (scans_of j.now) }
    requires epoch { 0 < epoch }
    ensures { result ≡ refusal_of j.now.job.now epoch (scans_of j.now) }
{
    let early = j.early();
    if early.is_some() {
        return early;
    }
    late(j, epoch)
}

/// Whether a job and the scans of a schedule go together, with epochs of this length, or the first cause for which they do not. It
/// takes no memory.
pub(crate) fn go_together(j: &Joining, epoch: u64) -> Result<(), JoinFault>
    requires joining { IsJoining j.now }
    requires scans { AreScans (scans_of j.now) }
    requires epoch { 0 < epoch }
    ensures accepted { OnOk result (refusal_of j.now.job.now epoch (scans_of j.now) ≡ None) }
    ensures refused { IfErr result (λ fault. refusal_of j.now.job.now epoch (scans_of j.now) ≡ Some fault) }
{
    match refusal(j, epoch) {
        None => Ok(()),
        Some(fault) => Err(fault),
    }
}
