//! The parts of a job.
ghost use Rattle.std.specs.Prelude.{◌≡◌, ◌<◌, ◌≤◌, IfSome, unwrap_or};
ghost use Rattle.named_list.specs.Named.{names};
ghost use Rattle.job_text.specs.Ranges.{IsJob};

use job_text::{Job, Pairs, Station};
use named_list::Named;

/// The stations, in the order of their lines.
pub(crate) fn stations(job: &Job) -> &[Station]
    ensures value { result.now ≡ job.now.stations }
    ensures ranges { IsJob job.now }
{
    job.stations.items()
}

/// The names that the job takes.
pub(crate) fn takes(job: &Job) -> &Named<()>
    ensures { names result.now ≡ job.now.takes }
{
    &job.takes
}

/// The products, each by its two channels.
pub(crate) fn products(job: &Job) -> &Pairs
    ensures value { result.now ≡ job.now.products }
    ensures ranges { IsJob job.now }
{
    &job.products
}

/// The samples from one knot of a delay to the next.
pub(crate) fn knot(job: &Job) -> u32
    ensures { result ≡ job.now.knot }
{
    job.knot
}

/// The samples in an epoch.
pub(crate) fn epoch(job: &Job) -> u32
    ensures value { result ≡ job.now.epoch }
    ensures some { 0 < result }
    ensures short { result ≤ 4194304 }
{
    job.epoch
}

/// The samples in an epoch, by what is asked for or else by the job's own line.
pub(crate) fn in_force(asked: Option<u64>, job: &Job) -> u64
    requires { IfSome asked (λ e. (1 ≤ e) × (e ≤ 4194304)) }
    ensures value { result ≡ unwrap_or asked job.now.epoch }
    ensures some { 0 < result }
    ensures short { result ≤ 4194304 }
{
    match asked {
        Some(epoch) => epoch,
        None => u64::from(epoch(job)),
    }
}

/// The samples in an integration.
pub(crate) fn integration(job: &Job) -> u64
    ensures value { result ≡ job.now.integration }
    ensures some { 0 < result }
{
    job.integration
}

/// The number of lags.
pub(crate) fn lags(job: &Job) -> u32
    ensures { result ≡ job.now.lags }
{
    job.lags
}

/// Whether a station stands with itself.
pub(crate) fn auto(job: &Job) -> bool
    ensures { result ≡ job.now.auto }
{
    job.auto
}
