//! The workers of an epoch.
ghost use Rattle.std.specs.Prelude.{◌≡◌, ◌*◌, ◌<◌, ◌≤◌, ◌^◌, List, IfOk, length};
ghost use Rattle.std.specs.List.{All};
ghost use Rattle.station_stream.specs.Stream.{StreamFields};
ghost use Rattle.delay_track.specs.Track.{model_of};
ghost use Rattle.pulsar_bins.specs.Bin.{bin_at};
ghost use Rattle.epoch_run.specs.{Amounts.{work_cells}, Binned.{bin_cells_in_epoch}, Planes.{HoldStreams, IsNumbered, planed}, Streamed.{streamed}, Sums.{IsSummed, cells_in_epoch, pieces_in_epoch}};

use crate::planes::EpochPlanes;
use crate::team::{join_team, make_team, run_team};
use crate::work::Work;
use atomic_sums::EpochSums;
use corr_model::Pair;
use delay_track::Track;
use dev_traits::Gate;
use piece_plan::EpochPlan;
use station_stream::Stream;
use std::alloc::{AllocError, Global};
use std::thread::Threads;

/// The sums of an epoch, by group and then by rising lag, in pieces of at most `piece` samples, 64 to 4,194,304, by `workers`
/// threads, 1 to 64; where a thread cannot be had its part is done by another. `samples` is the scan's length. `pairs` has a pair
/// for each group, in the order of the groups' numbers: in it `a` and `b` are places in `streams`, `x` and `y` channels of these.
/// A sample that no stream has in its window adds nothing, so the windows hold the epoch and as many samples on each side as
/// there are lags. All memory but that of the totals is taken before the
/// first piece.
pub fn run_epoch<R: Threads + Sync, G: Gate + Sync>(
    rt: &R,
    alloc: Global,
    streams: &[Stream],
    pairs: &[Pair],
    samples: u64,
    plan: &EpochPlan,
    piece: u64,
    workers: u32,
    gate: &G,
) -> Result<EpochSums, AllocError>
    requires epoch { IsSummed pairs.now samples plan.now piece }
    requires workers { (1 ≤ workers) × (workers ≤ 64) }
    ensures cells { IfOk result (λ sums. sums.cells ≡ cells_in_epoch (streamed streams.now) pairs.now samples plan.now) }
    ensures pieces { IfOk result (λ sums. sums.pieces ≡ pieces_in_epoch plan.now piece) }
{
    let planes = EpochPlanes::build(alloc, streams)?;
    sum_planes(
        rt, alloc, &planes, pairs, samples, plan, piece, workers, gate,
    )
}

/// The sums of an epoch as those of `run_epoch`, from the planes of its streams, which stay as they are: in a pair `a` and `b` are
/// places among the stations of `planes`, `x` and `y` channels of these. All memory but that of the totals is taken before the
/// first piece.
pub fn sum_planes<R: Threads + Sync, G: Gate + Sync>(
    rt: &R,
    alloc: Global,
    planes: &EpochPlanes,
    pairs: &[Pair],
    samples: u64,
    plan: &EpochPlan,
    piece: u64,
    workers: u32,
    gate: &G,
) -> Result<EpochSums, AllocError>
    requires epoch { IsSummed pairs.now samples plan.now piece }
    requires workers { (1 ≤ workers) × (workers ≤ 64) }
    ensures cells { IfOk result (λ sums. sums.cells ≡ cells_in_epoch (planed planes.now) pairs.now samples plan.now) }
    ensures streams { IfOk result (λ sums. (streams : List StreamFields) → HoldStreams planes.now streams
        → sums.cells ≡ cells_in_epoch (streamed streams) pairs.now samples plan.now) }
    ensures pieces { IfOk result (λ sums. sums.pieces ≡ pieces_in_epoch plan.now piece) }
{
    are_numbered(pairs);
    let work = Work::new(planes, pairs, samples, plan, piece);
    let sums = sum_work(rt, alloc, &work, workers, gate)?;
    Ok(sums)
}

/// The sums of an epoch by the bins of a pulse, as those of `run_epoch`: by group, then by bin, and then by rising lag. `count` is
/// the number of bins in a turn, 2 to 64, and there are at most 4,194,304 cells in all. The track gives the pulse's phase at each
/// sample of the scan, in units of 2^-32 turn: it has the phase's entries in place of a station's polynomials, and no clock. A
/// pair of samples is of the bin of its first one. All memory but that of the totals is taken before the first piece.
pub fn run_bins<R: Threads + Sync, G: Gate + Sync>(
    rt: &R,
    alloc: Global,
    streams: &[Stream],
    pairs: &[Pair],
    samples: u64,
    plan: &EpochPlan,
    track: &Track<'_>,
    count: u32,
    piece: u64,
    workers: u32,
    gate: &G,
) -> Result<EpochSums, AllocError>
    requires epoch { IsSummed pairs.now samples plan.now piece }
    requires workers { (1 ≤ workers) × (workers ≤ 64) }
    requires some { 2 ≤ count }
    requires few { count ≤ 64 }
    requires track { track.now.samples ≡ samples }
    requires room { plan.now.products * plan.now.baselines * plan.now.lags * count ≤ 4194304 }
    ensures cells { IfOk result (λ sums. sums.cells
        ≡ bin_cells_in_epoch (streamed streams.now) pairs.now samples plan.now (bin_at count (model_of track.now)) count) }
    ensures pieces { IfOk result (λ sums. sums.pieces ≡ pieces_in_epoch plan.now piece) }
{
    let planes = EpochPlanes::build(alloc, streams)?;
    sum_bins(
        rt, alloc, &planes, pairs, samples, plan, track, count, piece, workers, gate,
    )
}

/// The sums of an epoch by the bins of a pulse as those of `run_bins`, from the planes of its streams, which stay as they are.
pub fn sum_bins<R: Threads + Sync, G: Gate + Sync>(
    rt: &R,
    alloc: Global,
    planes: &EpochPlanes,
    pairs: &[Pair],
    samples: u64,
    plan: &EpochPlan,
    track: &Track<'_>,
    count: u32,
    piece: u64,
    workers: u32,
    gate: &G,
) -> Result<EpochSums, AllocError>
    requires epoch { IsSummed pairs.now samples plan.now piece }
    requires workers { (1 ≤ workers) × (workers ≤ 64) }
    requires some { 2 ≤ count }
    requires few { count ≤ 64 }
    requires track { track.now.samples ≡ samples }
    requires room { plan.now.products * plan.now.baselines * plan.now.lags * count ≤ 4194304 }
    ensures cells { IfOk result (λ sums. sums.cells
        ≡ bin_cells_in_epoch (planed planes.now) pairs.now samples plan.now (bin_at count (model_of track.now)) count) }
    ensures streams { IfOk result (λ sums. (streams : List StreamFields) → HoldStreams planes.now streams
        → sums.cells ≡ bin_cells_in_epoch (streamed streams) pairs.now samples plan.now (bin_at count (model_of track.now)) count) }
    ensures pieces { IfOk result (λ sums. sums.pieces ≡ pieces_in_epoch plan.now piece) }
{
    are_numbered(pairs);
    let work = Work::by_bins(planes, pairs, samples, plan, piece, track, count);
    let sums = sum_work(rt, alloc, &work, workers, gate)?;
    Ok(sums)
}

// The sums of what the workers are to read.
fn sum_work<R: Threads + Sync, G: Gate + Sync>(
    rt: &R,
    alloc: Global,
    work: &Work<'_>,
    workers: u32,
    gate: &G,
) -> Result<EpochSums, AllocError>
    requires workers { (1 ≤ workers) × (workers ≤ 64) }
    ensures cells { IfOk result (λ sums. sums.cells ≡ work_cells work.now) }
    ensures pieces { IfOk result (λ sums. sums.pieces ≡ pieces_in_epoch work.now.epoch work.now.piece) }
{
    let shares = u64::from(workers);
    let (board, seat) = work.board(alloc, shares)?;
    let mut team = make_team(alloc, &board, seat, shares, work)?;
    run_team(rt, work, &board, &mut team, gate);
    let seat = join_team(&board, team, work);
    let sums = work.sums(alloc, board, seat)?;
    Ok(sums)
}

// The numbers of each pair are those of stations and channels that planes are made for. The call does nothing: it brings this law.
fn are_numbered(pairs: &[Pair])
    ensures { All IsNumbered pairs.now }
{
    for pair in pairs {
        is_numbered(pair);
    }
}

// Those of a pair are.
fn is_numbered(pair: &Pair)
    ensures { IsNumbered pair.now }
{
    is_number(pair.a);
    is_number(pair.x);
    is_number(pair.b);
    is_number(pair.y);
}

// A number of 32 bits is below 2^32.
fn is_number(n: u32)
    ensures { n < 2 ^ 32 }
{
    let _ = n;
}
