//! Sums of a lag's cells.
ghost use Rattle.std.specs.Prelude.{◌≡◌, ◌<◌, ◌≤◌, ◌^◌, ◌*◌, ◌+◌, ◌+ℤ◌, ◌-ℤ◌, ◌*ℤ◌, unsigned_abs};
ghost use Rattle.fringe_search.specs.{Sums.{cosine_of, sine_of, turned_re, turned_im, size, re_at, im_at, amplitude_at, power_of, bound_at}, Peaks.{IsRate}};

use crate::grid::Grid;
use crate::phase::{Phase, next, step_of};
use crate::series::CellSeries;
use corr_model::Cell;

// The cosine of each sixteenth of a turn, times 2^14.
const COSINES: [i64; 16] = [
    16384, 15137, 11585, 6270, 0, -6270, -11585, -15137, -16384, -15137, -11585, -6270, 0, 6270,
    11585, 15137,
];

// The real and the imaginary part of a sum.
#[derive(Clone, Copy, Debug)]
pub(crate) struct Sum {
    pub re: i64,
    pub im: i64,
}

fn cosine(k: u32) -> i64
    requires { k < 16 }
    ensures value { result ≡ cosine_of k }
    ensures within { unsigned_abs result ≤ 16384 }
{
    COSINES[k as usize]
}

// A component times a cosine.
fn scaled(x: i64, k: u32) -> i64
    requires small { unsigned_abs x < 2 ^ 49 }
    requires k { k < 16 }
    ensures value { result ≡ x *ℤ cosine_of k }
    ensures within { unsigned_abs result ≤ 16384 * unsigned_abs x }
{
    x * cosine(k)
}

// The real part of a number turned back by a sector, and the imaginary one.
fn re_part(re: i64, im: i64, k: u32) -> i64
    requires small { unsigned_abs re + unsigned_abs im < 2 ^ 49 }
    requires k { k < 16 }
    ensures value { result ≡ re *ℤ cosine_of k +ℤ im *ℤ sine_of k }
    ensures within { unsigned_abs result ≤ 16384 * (unsigned_abs re + unsigned_abs im) }
{
    scaled(re, k) + scaled(im, (k + 12) % 16)
}

fn im_part(re: i64, im: i64, k: u32) -> i64
    requires small { unsigned_abs re + unsigned_abs im < 2 ^ 49 }
    requires k { k < 16 }
    ensures value { result ≡ im *ℤ cosine_of k -ℤ re *ℤ sine_of k }
    ensures within { unsigned_abs result ≤ 16384 * (unsigned_abs re + unsigned_abs im) }
{
    scaled(im, k) - scaled(re, (k + 12) % 16)
}

// A cell turned back by a sector.
fn turned(cell: Cell, k: u32) -> Sum
    requires small { size cell < 2 ^ 49 }
    requires k { k < 16 }
    ensures re { result.re ≡ turned_re cell k }
    ensures im { result.im ≡ turned_im cell k }
    ensures re_within { unsigned_abs result.re ≤ 16384 * size cell }
    ensures im_within { unsigned_abs result.im ≤ 16384 * size cell }
{
    Sum {
        re: re_part(cell.re, cell.im, k),
        im: im_part(cell.re, cell.im, k),
    }
}

fn plus(a: Sum, b: Sum) -> Sum
    requires re { unsigned_abs a.re + unsigned_abs b.re < 2 ^ 63 }
    requires im { unsigned_abs a.im + unsigned_abs b.im < 2 ^ 63 }
    ensures re { result.re ≡ a.re +ℤ b.re }
    ensures im { result.im ≡ a.im +ℤ b.im }
{
    Sum {
        re: a.re + b.re,
        im: a.im + b.im,
    }
}

// The size of a cell.
fn size_of(cell: Cell) -> u128
    ensures value { result ≡ size cell }
    ensures within { result ≤ 18446744073709551616 }
{
    u128::from(cell.re.unsigned_abs()) + u128::from(cell.im.unsigned_abs())
}

// The sum at a lag, by its number, and a rate.
pub(crate) fn sum_at(series: &CellSeries, grid: &Grid, lag: u32, rate: i32) -> Sum
    requires lag { lag < series.now.lags }
    requires rate { IsRate grid.now.rates rate }
    requires small { amplitude_at series.now lag < 2 ^ 49 }
    ensures re { result.re ≡ re_at series.now grid.now.divide lag rate }
    ensures im { result.im ≡ im_at series.now grid.now.divide lag rate }
{
    let step = step_of(rate, grid.divide);
    let mut phase = Phase { sector: 0, part: 0 };
    let mut sum = Sum { re: 0, im: 0 };
    for m in 0..series.integrations() {
        sum = plus(sum, turned(series.cell(m, lag), phase.sector));
        phase = next(phase, step, grid.divide);
    }
    sum
}

// The power of a sum.
pub(crate) fn power(sum: Sum) -> u128
    ensures { result ≡ power_of sum.re sum.im }
{
    let re = u128::from(sum.re.unsigned_abs());
    let im = u128::from(sum.im.unsigned_abs());
    re * re + im * im
}

// The sum of the sizes of a lag's cells.
pub(crate) fn amplitude_of(series: &CellSeries, lag: u32) -> u128
    requires { lag < series.now.lags }
    ensures { result ≡ amplitude_at series.now lag }
{
    let mut sum: u128 = 0;
    for m in 0..series.integrations() {
        sum += size_of(series.cell(m, lag));
    }
    sum
}

// What no power of a lag is above.
pub(crate) fn bound_of(series: &CellSeries, lag: u32) -> u128
    requires lag { lag < series.now.lags }
    requires small { amplitude_at series.now lag < 2 ^ 49 }
    ensures { result ≡ bound_at series.now lag }
{
    let most = 16384 * amplitude_of(series, lag);
    2 * (most * most)
}
