//! What stands behind an open gate.
ghost use Rattle.std.specs.Prelude.{◌≡◌, ◌≢◌, ◌+◌, ◌*◌, ◌≤◌, ◌<◌, ◌^◌, ℕ, List, length, slice_index, if◌then◌else◌, true, false};
ghost use Rattle.piece_plan.specs.Epochs.{IsJob};
ghost use Rattle.plan_places.specs.Places.{place_at, IsPlace};
ghost use Rattle.journal_image.specs.{declared.finding.Behind.TheVariants.{Fault}, Head.{place_text}, Difference.{end_of}, Finding.{HasEpoch, IsBehind, IsFrontOf, IsOpen, IsReadAs}};

use crate::head::head_bytes;
use crate::range::epoch_to;
use crate::{Behind, Differs, EpochRange};
use byteorder::{ByteOrder, LittleEndian};
use piece_plan::JobPlan;
use plan_places::{Place, cut_own};

/// The number of bytes of a record of so many cells, with its range or without.
pub fn record_len(ranged: bool, cells: u32) -> u64
    ensures is { result ≡ (if ranged then 28 + 24 * cells else 24 * cells) }
    ensures bound { result < 2 ^ 38 }
{
    let body = 24 * u64::from(cells);
    if ranged { 28 + body } else { body }
}

/// What stands behind an open gate, from byte `at` of the file on, where a record of an epoch that begins at `place` is
/// due. `head` has the first 28 bytes there, zeros past the file's end, and `left` is the number of bytes up to that end.
/// `ranged` says whether records carry their range there.
pub fn behind(
    head: &[u8],
    left: u64,
    at: u64,
    ranged: bool,
    place: &Place,
    plan: &JobPlan,
) -> Behind
    requires head { length head.now ≡ 28 }
    requires job { IsJob plan.now }
    requires place { IsPlace plan.now (place_at place.now) }
    requires short { at + left < 2 ^ 63 }
    ensures is { (bytes : List ℕ) → length bytes ≡ left → IsFrontOf head.now bytes
        → IsBehind plan.now ranged (place_at place.now) bytes at result }
    ensures epoch { HasEpoch plan.now result }
{
    if ranged {
        behind_ranged(head, left, at, place, plan)
    } else {
        behind_old(head, left, at, place, plan)
    }
}

// The same where records have no range.
fn behind_old(head: &[u8], left: u64, at: u64, place: &Place, plan: &JobPlan) -> Behind
    requires { IsOpen plan.now (place_at place.now) head.now at left }
    ensures is { IsReadAs plan.now false (place_at place.now) head.now left at result }
    ensures epoch { HasEpoch plan.now result }
{
    let e = cut_own(plan, place);
    if left < 24 {
        return cut_short(at + left);
    }
    let count = LittleEndian::read_u64(&head[16..]);
    if count == u64::MAX {
        return Behind::Mark;
    }
    if left < record_len(false, e.cells()) {
        return cut_short(at + left);
    }
    Behind::Record(e)
}

// The same where they have one.
fn behind_ranged(head: &[u8], left: u64, at: u64, place: &Place, plan: &JobPlan) -> Behind
    requires { IsOpen plan.now (place_at place.now) head.now at left }
    ensures is { IsReadAs plan.now true (place_at place.now) head.now left at result }
    ensures epoch { HasEpoch plan.now result }
{
    let due = head_from(place);
    let there = left.min(20) as usize;
    let same = same_front(head, &due, there);
    if same < there {
        return Behind::Fault(Differs {
            at: at + same as u64,
            kept: Some(head[same]),
            ours: Some(due[same]),
        });
    }
    if left < 28 {
        return cut_short(at + left);
    }
    let to = LittleEndian::read_u64(&head[20..]);
    let Some(e) = epoch_to(plan, place, to) else {
        return Behind::Fault(Differs {
            at: at + 20,
            kept: Some(head[20]),
            ours: None,
        });
    };
    if left < record_len(true, e.cells()) {
        return cut_short(at + left);
    }
    Behind::Record(e)
}

// The file ends before what is due.
fn cut_short(len: u64) -> Behind
    ensures { result ≡ Fault (end_of len) }
{
    Behind::Fault(Differs {
        at: len,
        kept: None,
        ours: None,
    })
}

// The head of a record from a place on, but for its last eight bytes, which say where the range ends.
fn head_from(place: &Place) -> [u8; 28]
    ensures { (k : ℕ) → k < 20 → slice_index result k ≡ slice_index (place_text (place_at place.now)) k }
{
    head_bytes(&EpochRange {
        scan: place.scan,
        m: place.m,
        from: place.from,
        to: 0,
    })
}

// How many of the first `there` bytes are those of a part, up to the first that is not.
fn same_front(bytes: &[u8], part: &[u8], there: usize) -> usize
    requires bytes { there ≤ length bytes.now }
    requires part { there ≤ length part.now }
    ensures within { result ≤ there }
    ensures same { (k : ℕ) → k < result → slice_index bytes.now k ≡ slice_index part.now k }
    ensures other { result < there → slice_index bytes.now result ≢ slice_index part.now result }
{
    for i in 0..there {
        if bytes[i] != part[i] {
            return i;
        }
    }
    there
}
