//! The greatest sizes of a job.
ghost use Rattle.std.specs.Prelude.{◌≡◌, ◌∷◌, [], ◌≤◌, ◌<◌, ◌+◌, ◌*◌, ◌^◌, ℕ, length, map, fold, None, option_map};
ghost use Rattle.std.specs.{Int.{div_ceil}, List.{All}};
ghost use Rattle.job_join.specs.{Standing.{taken}, Channels.{channels_of}, Spans.{samples_of}, Limits.{baselines_in, scan_epochs, measure, past, limit}, Joining.{scans_of, IsJoining}};
ghost use Rattle.job_join.specs.Measured.{first_past, job_measures, length_measures, size_measures};

use crate::fault::Quantity;
use crate::joining::Joining;
use crate::measures::{all_epochs, cells_over, samples_over, seconds_over};
use crate::parts::{products, stations};

// A quantity with its value, where that is past its greatest.
fn past(quantity: Quantity, most: u128, value: u128) -> Option<(Quantity, u128)>
    ensures { result ≡ past (measure quantity most (value ∷ [])) }
{
    if most < value {
        Some((quantity, value))
    } else {
        None
    }
}

// A quantity with the first of its values past its greatest.
fn with_first(quantity: Quantity, value: Option<u128>) -> Option<(Quantity, u128)>
    ensures { result ≡ option_map (λ (v : ℕ). (quantity, v)) value }
{
    match value {
        None => None,
        Some(value) => Some((quantity, value)),
    }
}

// The stations, past their greatest number.
fn stations_past(j: &Joining) -> Option<(Quantity, u128)>
    ensures { result ≡ past (measure Quantity.Stations 32 (length j.now.job.now.stations ∷ [])) }
{
    past(Quantity::Stations, 32, stations(j.job).len() as u128)
}

// The products, past their greatest number.
fn products_past(j: &Joining) -> Option<(Quantity, u128)>
    ensures { result ≡ past (measure Quantity.Products 256 (length j.now.job.now.products ∷ [])) }
{
    past(Quantity::Products, 256, products(j.job).len() as u128)
}

// The channels, past their greatest number.
fn channels_past(j: &Joining) -> Option<(Quantity, u128)>
    requires { IsJoining j.now }
    ensures { result ≡ past (measure Quantity.Channels 64 (length (channels_of j.now.job.now) ∷ [])) }
{
    past(Quantity::Channels, 64, j.channels.len() as u128)
}

// The samples of the first scan that has too many.
fn samples_past(j: &Joining) -> Option<(Quantity, u128)>
    requires { IsJoining j.now }
    ensures { result ≡ past (measure Quantity.Samples (2 ^ 40) (map (samples_of j.now.job.now j.now.rate) (taken j.now.job.now (scans_of j.now)))) }
{
    with_first(Quantity::Samples, samples_over(j, 1 << 40))
}

// The seconds of the first scan that takes too many.
fn seconds_past(j: &Joining) -> Option<(Quantity, u128)>
    requires joining { IsJoining j.now }
    requires rate { 0 < j.now.rate }
    ensures { result ≡ past (measure Quantity.Seconds (2 ^ 27) (map (λ scan. div_ceil (samples_of j.now.job.now j.now.rate scan) j.now.rate) (taken j.now.job.now (scans_of j.now)))) }
{
    with_first(Quantity::Seconds, seconds_over(&j.places, j.rate, 1 << 27))
}

// The cells of the first scan that has too many.
fn cells_past(j: &Joining) -> Option<(Quantity, u128)>
    requires joining { IsJoining j.now }
    requires stations { length j.now.job.now.stations ≤ 32 }
    requires products { length j.now.job.now.products ≤ 256 }
    ensures { result ≡ past (measure Quantity.Cells 4194304 (map (λ scan. length (baselines_in j.now.job.now scan) * length j.now.job.now.products * j.now.job.now.lags) (taken j.now.job.now (scans_of j.now)))) }
{
    with_first(Quantity::Cells, cells_over(&j.places, j.job, 4_194_304))
}

// The samples of all channels of all stations in an epoch, past their greatest number.
fn load_past(j: &Joining, epoch: u64) -> Option<(Quantity, u128)>
    requires joining { IsJoining j.now }
    requires stations { length j.now.job.now.stations ≤ 32 }
    requires channels { length (channels_of j.now.job.now) ≤ 64 }
    ensures { result ≡ past (measure Quantity.Load 268435456 (length j.now.job.now.stations * length (channels_of j.now.job.now) * epoch ∷ [])) }
{
    let stations = stations(j.job).len() as u128;
    let channels = j.channels.len() as u128;
    let load = stations * channels * u128::from(epoch);
    past(Quantity::Load, 268_435_456, load)
}

// The epochs of all scans, past their greatest number.
fn epochs_past(j: &Joining, epoch: u64) -> Option<(Quantity, u128)>
    requires joining { IsJoining j.now }
    requires stations { length j.now.job.now.stations ≤ 32 }
    requires samples { All (λ scan. samples_of j.now.job.now j.now.rate scan ≤ 2 ^ 40) (taken j.now.job.now (scans_of j.now)) }
    requires epoch { 0 < epoch }
    ensures { result ≡ past (measure Quantity.Epochs (2 ^ 32) (fold ◌+◌ 0 (map (scan_epochs j.now.job.now epoch j.now.rate) (taken j.now.job.now (scans_of j.now))) ∷ [])) }
{
    let epochs = all_epochs(&j.places, j.job, epoch, j.rate);
    past(Quantity::Epochs, 1 << 32, epochs)
}

// The first number of things of a job that is past its greatest.
fn counts(j: &Joining) -> Option<(Quantity, u128)>
    requires { IsJoining j.now }
    ensures { result ≡ first_past (job_measures j.now.job.now) }
{
    stations_past(j).or(products_past(j)).or(channels_past(j))
}

// The first length of a scan that is past its greatest, the samples before the seconds.
fn lengths(j: &Joining) -> Option<(Quantity, u128)>
    requires joining { IsJoining j.now }
    requires rate { 0 < j.now.rate }
    ensures { result ≡ first_past (length_measures j.now.job.now j.now.rate (taken j.now.job.now (scans_of j.now))) }
{
    samples_past(j).or(seconds_past(j))
}

// The first of the sizes that a correlation keeps that is past its greatest.
fn sizes(j: &Joining, epoch: u64) -> Option<(Quantity, u128)>
    requires joining { IsJoining j.now }
    requires counts { first_past (job_measures j.now.job.now) ≡ None }
    requires lengths { first_past (length_measures j.now.job.now j.now.rate (taken j.now.job.now (scans_of j.now))) ≡ None }
    requires epoch { 0 < epoch }
    ensures { result ≡ first_past (size_measures j.now.job.now epoch j.now.rate (taken j.now.job.now (scans_of j.now))) }
{
    cells_past(j)
        .or(load_past(j, epoch))
        .or(epochs_past(j, epoch))
}

/// The first quantity that is past its greatest, with its value. Epochs have `epoch` samples.
pub(crate) fn limit(j: &Joining, epoch: u64) -> Option<(Quantity, u128)>
    requires joining { IsJoining j.now }
    requires rate { 0 < j.now.rate }
    requires epoch { 0 < epoch }
    ensures { result ≡ limit j.now.job.now epoch (scans_of j.now) }
{
    let counts = counts(j);
    if counts.is_some() {
        return counts;
    }
    let lengths = lengths(j);
    if lengths.is_some() {
        return lengths;
    }
    sizes(j, epoch)
}
