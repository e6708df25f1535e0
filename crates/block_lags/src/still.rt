//! The products of two rows of values of which one or both have one direction: products with levels, by weights.
ghost use Rattle.std.specs.Prelude.{◌≡◌, ◌<◌, ◌≤◌, ◌+◌, ◌*◌, ◌^◌, ◌+ℤ◌, ◌-ℤ◌, ◌*ℤ◌, neg_ℤ, ℕ, length, slice_index_or};
ghost use Rattle.byte_lags.specs.Streams.{AreWithin, IsUnit, IsWeight};
ghost use Rattle.corr_model.specs.Cell.{no_cell};
ghost use Rattle.byte_streams.specs.{Streams.{value_in}, Rows.{level_value}};
ghost use Rattle.block_lags.specs.Cells.{HasProducts, lag_cell};

use crate::turning::BLOCK;
use byte_lags::{Weights, add_products};
use byte_streams::{Levels, Streams};
use corr_model::Cell;

// The weights of a product of two directions, of which the second one is conjugate.
#[inline(always)]
fn both(a: Weights, b: Weights) -> Weights
    requires a { IsUnit a.re × IsUnit a.im }
    requires b { IsUnit b.re × IsUnit b.im }
    ensures re { result.re ≡ a.re *ℤ b.re +ℤ a.im *ℤ b.im }
    ensures im { result.im ≡ a.im *ℤ b.re -ℤ a.re *ℤ b.im }
    ensures small { IsWeight result.re × IsWeight result.im }
{
    Weights {
        re: a.re * b.re + a.im * b.im,
        im: a.im * b.re - a.re * b.im,
    }
}

// The weights of a direction's product with imaginary components, conjugate.
#[inline(always)]
fn turned(d: Weights) -> Weights
    requires { IsUnit d.re × IsUnit d.im }
    ensures re { result.re ≡ d.im }
    ensures im { result.im ≡ neg_ℤ d.re }
    ensures small { IsWeight result.re × IsWeight result.im }
{
    Weights {
        re: d.im,
        im: -d.re,
    }
}

// The weights of real components' product with a direction, conjugate.
#[inline(always)]
fn conjugate(d: Weights) -> Weights
    requires { IsUnit d.re × IsUnit d.im }
    ensures re { result.re ≡ d.re }
    ensures im { result.im ≡ neg_ℤ d.im }
    ensures small { IsWeight result.re × IsWeight result.im }
{
    Weights {
        re: d.re,
        im: -d.im,
    }
}

// The weights of imaginary components' product with a direction, conjugate.
#[inline(always)]
fn exchanged(d: Weights) -> Weights
    requires { IsUnit d.re × IsUnit d.im }
    ensures re { result.re ≡ d.im }
    ensures im { result.im ≡ d.re }
    ensures small { IsWeight result.re × IsWeight result.im }
{
    Weights { re: d.im, im: d.re }
}

/// Adds to each cell the products of two rows that each have one direction.
pub(crate) fn add_levels(a: &Levels, b: &Levels, greatest: u8, sums: &mut [u32], cells: &mut [Cell])
    requires greatest { greatest ≤ 60 }
    requires first { 4 * a.now.level.bias ≤ greatest }
    requires second { 4 * b.now.level.bias ≤ greatest }
    requires size { length a.now.level.bytes.now ≤ BLOCK }
    requires room { length a.now.level.bytes.now + length cells.old ≤ length b.now.level.bytes.now }
    requires work { length sums.old ≡ length cells.old }
    requires within { AreWithin (2 ^ 62 + 2 ^ 60) cells.old }
    ensures len { length cells.new ≡ length cells.old }
    ensures work { length sums.new ≡ length sums.old }
    ensures products { (i : ℕ) → i < length cells.old
        → HasProducts (lag_cell (level_value a.now) (level_value b.now) i (length a.now.level.bytes.now)) (slice_index_or cells.old i no_cell) (slice_index_or cells.new i no_cell) }
    ensures within { (most : ℕ) → AreWithin most cells.old → AreWithin (most + 3 * 2 ^ 34) cells.new }
{
    add_products(
        &a.level,
        &b.level,
        greatest,
        both(a.direction, b.direction),
        sums,
        cells,
    );
}

/// Adds to each cell the products of a row that has one direction and another one.
pub(crate) fn add_with_level(
    a: &Levels,
    second: &Streams,
    greatest: u8,
    sums: &mut [u32],
    cells: &mut [Cell],
)
    requires greatest { greatest ≤ 60 }
    requires first { 4 * a.now.level.bias ≤ greatest }
    requires second { 4 * second.now.bias ≤ greatest }
    requires size { length a.now.level.bytes.now ≤ BLOCK }
    requires room { length a.now.level.bytes.now + length cells.old ≤ length second.now.there.now }
    requires work { length sums.old ≡ length cells.old }
    requires within { AreWithin (2 ^ 62 + 2 ^ 60) cells.old }
    ensures len { length cells.new ≡ length cells.old }
    ensures work { length sums.new ≡ length sums.old }
    ensures products { (i : ℕ) → i < length cells.old
        → HasProducts (lag_cell (level_value a.now) (value_in second.now) i (length a.now.level.bytes.now)) (slice_index_or cells.old i no_cell) (slice_index_or cells.new i no_cell) }
    ensures within { (most : ℕ) → AreWithin most cells.old → AreWithin (most + 3 * 2 ^ 34) cells.new }
{
    add_products(
        &a.level,
        &second.reals(),
        greatest,
        a.direction,
        sums,
        cells,
    );
    add_products(
        &a.level,
        &second.imaginaries(),
        greatest,
        turned(a.direction),
        sums,
        cells,
    );
}

/// Adds to each cell the products of a row and another one that has one direction.
pub(crate) fn add_to_level(
    first: &Streams,
    b: &Levels,
    greatest: u8,
    sums: &mut [u32],
    cells: &mut [Cell],
)
    requires greatest { greatest ≤ 60 }
    requires first { 4 * first.now.bias ≤ greatest }
    requires second { 4 * b.now.level.bias ≤ greatest }
    requires size { length first.now.there.now ≤ BLOCK }
    requires room { length first.now.there.now + length cells.old ≤ length b.now.level.bytes.now }
    requires work { length sums.old ≡ length cells.old }
    requires within { AreWithin (2 ^ 62 + 2 ^ 60) cells.old }
    ensures len { length cells.new ≡ length cells.old }
    ensures work { length sums.new ≡ length sums.old }
    ensures products { (i : ℕ) → i < length cells.old
        → HasProducts (lag_cell (value_in first.now) (level_value b.now) i (length first.now.there.now)) (slice_index_or cells.old i no_cell) (slice_index_or cells.new i no_cell) }
    ensures within { (most : ℕ) → AreWithin most cells.old → AreWithin (most + 3 * 2 ^ 34) cells.new }
{
    add_products(
        &first.reals(),
        &b.level,
        greatest,
        conjugate(b.direction),
        sums,
        cells,
    );
    add_products(
        &first.imaginaries(),
        &b.level,
        greatest,
        exchanged(b.direction),
        sums,
        cells,
    );
}
