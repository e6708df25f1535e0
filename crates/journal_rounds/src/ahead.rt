//! What is summed and read ahead.
ghost use Rattle.std.specs.Prelude.{◌≡◌, ◌≤◌, None, IfOk, IfSome, is_some, option_map};
ghost use Rattle.station_stream.specs.Faults.{CountsReads};
ghost use Rattle.piece_plan.specs.Epochs.{IsEpoch};
ghost use Rattle.plan_places.specs.Places.{place_at, IsPlace};
ghost use Rattle.journal_rounds.specs.{Epochs.{IsNext, behind}, Ahead.{AreSumsOf, IsHeld, IsWalk, epoch_read, epoch_summed}};

use crate::sums::{Summed, sum_held};
use crate::values::{Held, held_from};
use dev_traits::{Gate, Shelf};
use piece_plan::JobPlan;
use plan_places::{Place, after};
use ready_job::Ready;
use run_sums::Spare;
use station_stream::StreamFault;
use std::alloc::Global;
use std::thread::{Threads, join_mut};

/// What of the epochs behind those kept is summed and read already: the sums of the next one, the values of the one behind it, or
/// of the next one where none is summed, and the place where the next one that is to be read begins.
#[derive(Drop)]
pub(crate) struct Ahead {
    pub(crate) summed: Option<Summed>,
    pub(crate) held: Option<Held>,
    pub(crate) next: Option<Place>,
}

/// Sums the epoch that is read, where one is, and at the same time reads the frames of the one behind it, where the job has such, and
/// makes its values, in room of `spare`. A read fault is answered before want of memory for the sums.
pub(crate) fn advance<R: Threads + Sync, F: Shelf + Send, G: Gate + Sync>(
    rt: &R,
    alloc: Global,
    spare: &mut Spare,
    ready: &Ready,
    part: &JobPlan,
    shelf: &mut F,
    epoch: u64,
    ahead: &Ahead,
    workers: u32,
    piece: u64,
    gate: &G,
) -> Result<Ahead, StreamFault>
    requires walk { IsWalk (F.told shelf.old) ready.now part.now epoch }
    requires values { IfSome ahead.now.held (IsHeld (F.told shelf.old) ready.now) }
    requires place { IfSome ahead.now.next (λ p. IsPlace part.now (place_at p)) }
    requires workers { (1 ≤ workers) × (workers ≤ 64) }
    requires piece { (64 ≤ piece) × (piece ≤ 4194304) }
    ensures same { F.told shelf.new ≡ F.told shelf.old }
    ensures sums { IfOk result (λ next. IfSome next.summed (AreSumsOf (F.told shelf.old) ready.now)) }
    ensures summed { IfOk result (λ next. epoch_summed next.summed ≡ epoch_read ahead.now.held) }
    ensures values { IfOk result (λ next. IfSome next.held (IsHeld (F.told shelf.old) ready.now)) }
    ensures held { IfOk result (λ next. IsNext part.now epoch (option_map place_at ahead.now.next) (epoch_read next.held)) }
    ensures read { IfOk result (λ next. is_some next.held ≡ is_some ahead.now.next) }
    ensures next { IfOk result (λ next. option_map place_at next.next
        ≡ behind part.now (epoch_read next.held) (option_map place_at ahead.now.next)) }
    ensures place { IfOk result (λ next. IfSome next.next (λ p. IsPlace part.now (place_at p))) }
    ensures counts { CountsReads (F.faults shelf.old) (F.faults shelf.new) result }
{
    are_held(shelf, ready, &ahead.held);
    let (made, summed) = join_mut(
        rt,
        &mut ||
            requires walk { IsWalk (F.told shelf.now) ready.now part.now epoch }
            requires place { IfSome ahead.now.next (λ p. IsPlace part.now (place_at p)) }
            requires workers { (1 ≤ workers) × (workers ≤ 64) }
        {
            held_from(
                rt, alloc, spare, ready, part, shelf, ahead.next, epoch, workers,
            )
        },
        &mut ||
            requires held { IfSome ahead.now.held (IsHeld None ready.now) }
            requires workers { (1 ≤ workers) × (workers ≤ 64) }
            requires piece { (64 ≤ piece) × (piece ≤ 4194304) }
        { sum_held(rt, alloc, ready, &ahead.held, workers, piece, gate) },
    );
    let held = made?;
    let summed = summed?;
    let next = place_behind(part, &held, ahead.next);
    Ok(Ahead { summed, held, next })
}

// Values are those of an epoch of the job also where the files are not told. The call does nothing: it brings this law.
fn are_held<F: Shelf>(_shelf: &F, _ready: &Ready, _held: &Option<Held>)
    requires { IfSome _held.now (IsHeld (F.told _shelf.now) _ready.now) }
    ensures { IfSome _held.now (IsHeld None _ready.now) }
{}

// The place behind the epoch that is read, where one is, and else this place.
fn place_behind(part: &JobPlan, held: &Option<Held>, at: Option<Place>) -> Option<Place>
    requires held { IfSome (epoch_read held.now) (IsEpoch part.now) }
    requires place { IfSome at (λ p. IsPlace part.now (place_at p)) }
    ensures behind { option_map place_at result ≡ behind part.now (epoch_read held.now) (option_map place_at at) }
    ensures place { IfSome result (λ p. IsPlace part.now (place_at p)) }
{
    match held {
        Some(held) => after(part, &held.epoch),
        None => at,
    }
}
