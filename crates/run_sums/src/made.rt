//! The rows of an epoch's stations, made out of frames by threads.
ghost use Rattle.std.specs.Prelude.{◌≡◌, ◌<◌, ◌≤◌, ◌+◌, None, length};
ghost use Rattle.std.specs.{List.{All}, Thread.{IsSync}};
ghost use Rattle.run_sums.specs.Frames.{IsMaking, IsRowIn, IsStretch, AreAllMade, rows_in};

use crate::making::Making;
use std::thread::{Threads, join_mut};

// Sets the bytes of a row from its place `start` on to the codes of the values there.
fn fill_stretch<R: Threads>(
    _rt: &R,
    making: &Making<'_>,
    row: usize,
    start: usize,
    codes: &mut [u8],
)
    requires making { IsMaking None making.now }
    requires row { row < rows_in making.now }
    requires room { making.now.from + start + length codes.old ≤ making.now.to }
    ensures { IsStretch making.now row start codes.new }
{
    let chans = making.plan.channels.items().len();
    let place = row / chans;
    let frames = &making.frames[place];
    let stay = &making.scan.stays.items()[place];
    let part = frames.part(making.plan, making.scan, stay, making.recordings);
    let from = making.from + start as u64;
    frames.fill(&part, row % chans, from, codes);
}

// Sets the bytes of each row to the codes of its values. The first one is row `first`.
fn fill_each<R: Threads>(rt: &R, making: &Making<'_>, first: usize, rows: &mut [Vec<u8>])
    requires making { IsMaking None making.now }
    requires inside { first + length rows.old ≤ rows_in making.now }
    requires long { All (IsRowIn making.now) rows.old }
    ensures { AreAllMade making.now first rows.new }
{
    for (i, codes) in rows.iter_mut().enumerate() {
        fill_stretch(rt, making, first + i, 0, codes);
    }
}

// The same by threads, each with so many rows: all are begun by this one, which has the last rows.
#[cycle(groups)]
fn fill_groups<R: Threads + Sync>(
    rt: &R,
    making: &Making<'_>,
    first: usize,
    share: usize,
    rows: &mut [Vec<u8>],
)
    requires making { IsMaking None making.now }
    requires inside { first + length rows.old ≤ rows_in making.now }
    requires long { All (IsRowIn making.now) rows.old }
    requires share { 0 < share }
    ensures { AreAllMade making.now first rows.new }
{
    if rows.len() <= share {
        fill_each(rt, making, first, rows);
        return;
    }
    let (own, rest) = rows.split_at_mut(share);
    join_mut(
        rt,
        &mut ||
            requires making { IsMaking None making.now }
            requires inside { first + length own.now ≤ rows_in making.now }
            requires long { All (IsRowIn making.now) own.now }
            ensures count { length own.exit.now ≡ length own.entry.now }
            ensures made { AreAllMade making.entry.now first own.exit.now }
        { fill_each(rt, making, first, own) },
        &mut ||
            requires sync { IsSync R.row }
            requires making { IsMaking None making.now }
            requires inside { first + share + length rest.now ≤ rows_in making.now }
            requires long { All (IsRowIn making.now) rest.now }
            requires share { 0 < share }
            ensures { AreAllMade making.entry.now (first + share) rest.exit.now }
        { fill_groups(rt, making, first + share, share, rest) },
    );
}

// Sets the bytes of row `row` from its place `start` on, and those of the rows behind it, to the codes of their values, by threads,
// each with at most `size` bytes of one row: all are begun by this one, at most `left` of them, and it has the last bytes.
#[cycle(stretches)]
fn fill_on<R: Threads + Sync>(
    rt: &R,
    making: &Making<'_>,
    row: usize,
    start: usize,
    size: usize,
    left: usize,
    codes: &mut [u8],
    rest: &mut [Vec<u8>],
)
    requires making { IsMaking None making.now }
    requires inside { row + 1 + length rest.old ≤ rows_in making.now }
    requires room { making.now.from + start + length codes.old ≤ making.now.to }
    requires long { All (IsRowIn making.now) rest.old }
    ensures made { IsStretch making.now row start codes.new }
    ensures rest { AreAllMade making.now (row + 1) rest.new }
{
    if left == 0 {
        fill_stretch(rt, making, row, start, codes);
        fill_each(rt, making, row + 1, rest);
        return;
    }
    if size < codes.len() {
        let (own, behind) = codes.split_at_mut(size);
        join_mut(
            rt,
            &mut ||
                requires making { IsMaking None making.now }
                requires row { row < rows_in making.now }
                requires room { making.now.from + start + length own.now ≤ making.now.to }
                ensures count { length own.exit.now ≡ length own.entry.now }
                ensures made { IsStretch making.entry.now row start own.exit.now }
            { fill_stretch(rt, making, row, start, own) },
            &mut ||
                requires sync { IsSync R.row }
                requires making { IsMaking None making.now }
                requires inside { row + 1 + length rest.now ≤ rows_in making.now }
                requires room { making.now.from + (start + size) + length behind.now ≤ making.now.to }
                requires long { All (IsRowIn making.now) rest.now }
                requires some { 0 < left }
                ensures made { IsStretch making.entry.now row (start + size) behind.exit.now }
                ensures rest { AreAllMade making.entry.now (row + 1) rest.exit.now }
            { fill_on(rt, making, row, start + size, size, left - 1, behind, rest) },
        );
        return;
    }
    let Some((next, others)) = rest.split_first_mut() else {
        fill_stretch(rt, making, row, start, codes);
        return;
    };
    join_mut(
        rt,
        &mut ||
            requires making { IsMaking None making.now }
            requires row { row < rows_in making.now }
            requires room { making.now.from + start + length codes.now ≤ making.now.to }
            ensures { IsStretch making.entry.now row start codes.exit.now }
        { fill_stretch(rt, making, row, start, codes) },
        &mut ||
            requires sync { IsSync R.row }
            requires making { IsMaking None making.now }
            requires inside { row + 1 + 1 + length others.now ≤ rows_in making.now }
            requires next { IsRowIn making.now next.now }
            requires long { All (IsRowIn making.now) others.now }
            requires some { 0 < left }
            ensures long { length next.exit.now.items ≡ length next.entry.now.items }
            ensures made { IsStretch making.entry.now (row + 1) 0 next.exit.now.items }
            ensures rest { AreAllMade making.entry.now (row + 1 + 1) others.exit.now }
        { fill_on(rt, making, row + 1, 0, size, left - 1, next, others) },
    );
}

/// Sets the bytes of each row to the codes of its values: rows, or stretches of rows where there are fewer rows than workers, are shared
/// by threads, of which about `workers` are at work where they can be had. No memory is taken.
pub(crate) fn fill_rows<R: Threads + Sync>(
    rt: &R,
    making: &Making<'_>,
    workers: u32,
    rows: &mut [Vec<u8>],
)
    requires making { IsMaking None making.now }
    requires workers { (1 ≤ workers) × (workers ≤ 64) }
    requires inside { length rows.old ≡ rows_in making.now }
    requires long { All (IsRowIn making.now) rows.old }
    ensures { AreAllMade making.now 0 rows.new }
{
    let (count, most) = (rows.len(), workers as usize);
    if most <= count {
        fill_groups(rt, making, 0, count.div_ceil(most), rows);
        return;
    }
    let Some((first, rest)) = rows.split_first_mut() else {
        return;
    };
    fill_first(
        rt,
        making,
        most.div_ceil(count).max(1),
        2 * most,
        first,
        rest,
    );
}

// Sets the bytes of the first row, in at most `shares` stretches, and of the rows behind it to the codes of their values.
fn fill_first<R: Threads + Sync>(
    rt: &R,
    making: &Making<'_>,
    shares: usize,
    left: usize,
    first: &mut Vec<u8>,
    rest: &mut [Vec<u8>],
)
    requires making { IsMaking None making.now }
    requires inside { 1 + length rest.old ≤ rows_in making.now }
    requires first { IsRowIn making.now first.old }
    requires long { All (IsRowIn making.now) rest.old }
    requires shares { 0 < shares }
    ensures long { IsRowIn making.now first.new }
    ensures made { IsStretch making.now 0 0 first.new.items }
    ensures rest { AreAllMade making.now 1 rest.new }
{
    let size = first.len().div_ceil(shares);
    fill_on(rt, making, 0, 0, size, left, first, rest);
}
