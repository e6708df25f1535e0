//! Planes of rows of codes.
ghost use Rattle.std.specs.Prelude.{◌≡◌, ◌≢◌, ◌<◌, ◌≤◌, ◌+◌, ◌*◌, ℕ, ℤ, IfOk, length, map, slice_index_or, Vec};
ghost use Rattle.std.specs.{Global.{Global}, List.{All}};
ghost use Rattle.epoch_run.specs.{Planes.{chans_value, items_of}, Rows.{HoldRows, IsRowOf, row_value}};

use bit_planes::Planes;
use std::alloc::{AllocError, Global};
use std::mem;

// Takes the row at a place, and leaves an empty one there.
fn take_row(alloc: Global, rows: &mut [Vec<u8>], i: usize) -> Vec<u8>
    requires { i < length rows.old }
    ensures row { (d : Vec ℕ Global) → result ≡ slice_index_or rows.old i d }
    ensures beside { (k : ℕ) (d : Vec ℕ Global) → k ≢ i → slice_index_or rows.new k d ≡ slice_index_or rows.old k d }
{
    mem::replace(&mut rows[i], Vec::new(alloc))
}

/// The planes of `count` rows from place `first` on, each with the values from sample `from` on.
pub(crate) fn chans_of_rows(
    alloc: Global,
    from: u64,
    rows: &mut [Vec<u8>],
    first: usize,
    count: usize,
) -> Result<Vec<Planes>, AllocError>
    requires inside { first + count ≤ length rows.old }
    requires end { (k : ℕ) (d : Vec ℕ Global) → first ≤ k → k < first + count → IsRowOf from (slice_index_or rows.old k d) }
    ensures count { IfOk result (λ chans. length chans.items ≡ count) }
    ensures values { IfOk result (λ chans. (chan : ℕ) (n : ℤ) → chan < count → chans_value chans.items chan n ≡ row_value from rows.old (first + chan) n) }
    ensures behind { (k : ℕ) (d : Vec ℕ Global) → first + count ≤ k → slice_index_or rows.new k d ≡ slice_index_or rows.old k d }
{
    let mut chans = Vec::new(alloc);
    for chan in 0..count {
        let row = take_row(alloc, rows, first + chan);
        chans.push(Planes::of_codes(from as i64, row))?;
    }
    Ok(chans)
}

/// The planes of rows, `chans` for each of so many stations, station by station.
pub(crate) fn stations_of_rows(
    alloc: Global,
    from: u64,
    stations: usize,
    chans: usize,
    rows: Vec<Vec<u8>>,
) -> Result<Vec<Vec<Planes>>, AllocError>
    requires count { length rows.items ≡ stations * chans }
    requires end { All (IsRowOf from) rows.items }
    ensures count { IfOk result (λ planes. length planes.items ≡ stations) }
    ensures rows { IfOk result (λ planes. HoldRows from chans rows.items (map items_of planes.items)) }
{
    let mut left = rows;
    let mut planes = Vec::new(alloc);
    for station in 0..stations {
        let first = station * chans;
        let own = chans_of_rows(alloc, from, &mut left, first, chans)?;
        planes.push(own)?;
    }
    Ok(planes)
}
