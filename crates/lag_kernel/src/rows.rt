//! All lags of a range, from rows of values.
ghost use Rattle.std.specs.Prelude.{◌≡◌, ℕ, ℤ, ◌+◌, ◌-◌, ◌<◌, ◌≤◌, ◌/◌, ◌^◌, ◌+ℤ◌, ◌-ℤ◌, pos, unsigned_abs, length, map, slice_index_or};
ghost use Rattle.std.specs.List.{range_with_len};
ghost use Rattle.byte_streams.specs.Rows.{row_len, row_value as block_value};
ghost use Rattle.packed_values.specs.{From.{value_from}, Packed.{values_of}};
ghost use Rattle.corr_model.specs.{declared.cell.Cell.{Cell}, Cell.{cell_in}, Lags.{lag_of}};
ghost use Rattle.corr_model.proofs.CellLemmas.{IsGrown};
ghost use Rattle.lag_kernel.specs.{Held.{AddsEach, IsRange}, Planes.{plane_pair}, Rows.{row_inside, row_samples}};

use crate::cut::{BLOCK, Heads};
use crate::lags::clear;
use crate::row::Row;
use block_lags::add_lags;
use byte_streams::Row as BlockRow;
use corr_model::Cell;
use packed_values::Packed;

/// The most lags.
const LAGS: usize = 1024;

/// The samples of a block with those of all its lags.
const WIDE: usize = 5120;

// Room for values that are cut out of a row.
#[derive(Drop)]
struct Cut {
    re: [u8; WIDE],
    im: [u8; WIDE],
    there: [u8; WIDE],
}

// The working room of a call.
#[derive(Drop)]
struct Room {
    first: Cut,
    second: Cut,
    numbers: [u8; WIDE],
    sums: [u32; LAGS],
}

impl Cut {
    fn new() -> Cut {
        Cut {
            re: [0; WIDE],
            im: [0; WIDE],
            there: [0; WIDE],
        }
    }
}

impl Room {
    fn new() -> Room {
        Room {
            first: Cut::new(),
            second: Cut::new(),
            numbers: [0; WIDE],
            sums: [0; LAGS],
        }
    }
}

// The row of `count` values from place `start` on; there is none before the first place and past the last one.
fn cut_out<'r>(row: &Packed<'_>, start: i64, count: usize, room: &'r mut Cut) -> BlockRow<'r>
    requires few { count ≤ WIDE }
    requires place { unsigned_abs start ≤ 2 ^ 41 }
    requires size { length (values_of row.now) ≤ 2 ^ 40 }
    ensures len { row_len result ≡ count }
    ensures values { (k : ℕ) → k < count → block_value result k ≡ value_from (values_of row.now) (start +ℤ pos k) }
{
    let re = &mut room.re;
    let im = &mut room.im;
    let there = &mut room.there;
    row.row_from(
        start,
        &mut re[..count],
        &mut im[..count],
        &mut there[..count],
    )
}

// The place of sample `at` in the first row, and that of its pair at the first lag in the second row.
fn places(a: &Row, b: &Row, at: u64, lags: usize) -> (i64, i64)
    requires sample { at ≤ 2 ^ 40 }
    requires lags { lags ≤ 1024 }
    ensures first { result.0 ≡ pos at -ℤ pos a.now.from }
    ensures second { result.1 ≡ (pos at -ℤ pos (lags / 2)) -ℤ pos b.now.from }
    ensures small { (unsigned_abs result.0 ≤ 2 ^ 40 + 2 ^ 20) × (unsigned_abs result.1 ≤ 2 ^ 40 + 2 ^ 20) }
{
    let at = at as i64;
    (at - a.from as i64, at - (lags / 2) as i64 - b.from as i64)
}

// The sample behind the block that begins with sample `at`.
fn next_stop(a: &Row, b: &Row, at: u64, to: u64, samples: u64, lags: usize) -> u64
    requires lags { lags ≤ 1024 }
    requires order { at < to }
    requires inside { to ≤ samples }
    requires scan { samples ≤ 2 ^ 40 }
    ensures some { at < result }
    ensures block { result ≤ at + 4096 }
    ensures most { result ≤ to }
{
    let most = BLOCK.min((to - at) as usize);
    let (place, other) = places(a, b, at, lags);
    let (mine, theirs) = (a.inside(samples), b.inside(samples));
    let heads = Heads {
        first: &mine,
        place,
        second: &theirs,
        other,
        lags,
    };
    at + heads.block_size(most) as u64
}

/// Sets `out[i]` to the cell of lag `i - L/2`, `L` being the length of `out`, from the rows of the first station and the second one.
/// Where a row holds no value, also before its first sample and behind its last one, there is none.
pub(crate) fn row_lags(a: &Row, b: &Row, from: u64, to: u64, samples: u64, out: &mut [Cell])
    requires most { length out.old ≤ 1024 }
    requires range { IsRange (2 ^ 36) from to samples }
    ensures { out.new ≡ map (λ i. cell_in (row_samples a.now b.now) plane_pair samples (lag_of (length out.old) i) from to) (range_with_len 0 (length out.old)) }
{
    clear(out);
    let mut room = Room::new();
    let mut at = from;
    while at < to {
        let stop = next_stop(a, b, at, to, samples, out.len());
        add_block(a, b, at, stop, samples, at - from, &mut room, out);
        at = stop;
    }
}

// Adds the pairs of a block, the samples from `at` up to, not including, `stop`, to each lag's cell. `pairs` pairs at
// most were added to each before.
fn add_block(
    a: &Row,
    b: &Row,
    at: u64,
    stop: u64,
    samples: u64,
    pairs: u64,
    room: &mut Room,
    out: &mut [Cell],
)
    requires lags { length out.old ≤ 1024 }
    requires block { IsRange 4096 at stop samples }
    requires most { pairs + (stop - at) ≤ 2 ^ 36 }
    requires grown { (k : ℕ) (d : Cell) → k < length out.old → IsGrown (slice_index_or out.old k d) pairs }
    ensures adds { AddsEach out.old out.new (λ i. cell_in (row_samples a.now b.now) plane_pair samples (lag_of (length out.old) i) at stop) }
    ensures grown { (k : ℕ) (d : Cell) → k < length out.old → IsGrown (slice_index_or out.new k d) (pairs + (stop - at)) }
{
    let (len, lags) = ((stop - at) as usize, out.len());
    let (place, other) = places(a, b, at, lags);
    let (mine, theirs) = (a.inside(samples), b.inside(samples));
    let first = cut_out(&mine, place, len, &mut room.first);
    let second = cut_out(&theirs, other, len + lags, &mut room.second);
    let sums = &mut room.sums[..];
    add_lags(&first, &second, &mut room.numbers, &mut sums[..lags], out);
}
