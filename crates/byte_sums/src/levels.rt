//! The sums of levels of one and two bits: their bytes are even and at most 6, so that a byte holds the halves of two of them.
ghost use Rattle.std.specs.Prelude.{◌≡◌, ◌<◌, ◌≤◌, ◌+◌, ◌-◌, ◌*◌, ◌/◌, ◌%◌, ℕ, true, bit_and, length, slice_index};
ghost use Rattle.byte_sums.specs.{Sums.{AreAtMost, lag_sum}, Fields.{AreFields, IsLevel}};

use crate::dots::one_sum;
use crate::fields::{TRIPLE, field_sums};

// The most samples of a row of levels, and the most lags.
const MOST: usize = 4128;

const LAGS: usize = 1024;

// With fewer samples or lags the halves cost more than they save.
const LEAST: usize = 1024;

const FEW: usize = 48;

// The bytes of the second row: those of a row, and the lags that have a byte of their own.
const WIDE: usize = MOST + LAGS / 2;

// How many bytes of each row are looked at before any are halved.
const FIRST: usize = 512;

// The bits that no byte of a level has.
const OTHER: u8 = 249;

// Whether the first bytes are levels.
#[inline(always)]
fn begins_with_levels(bytes: &[u8]) -> bool
    requires { FIRST ≤ length bytes.now }
    ensures { result ≡ true → (k : ℕ) → k < FIRST → IsLevel (slice_index bytes.now k) }
{
    let mut bits = 0;
    for k in 0..FIRST {
        bits |= bytes[k];
    }
    bits & OTHER == 0
}

// Whether rows begin with levels, and have so many samples and lags that sums by halves are faster.
fn may_be_halved(a: &[u8], b: &[u8], lags: usize) -> bool
    requires room { length a.now + lags ≤ length b.now + 1 }
    ensures size { result ≡ true → length a.now ≤ MOST }
    ensures lags { result ≡ true → lags ≤ LAGS }
    ensures some { result ≡ true → FEW ≤ lags }
{
    if a.len() < LEAST || a.len() > MOST || lags < FEW || lags > LAGS {
        return false;
    }
    begins_with_levels(a) && begins_with_levels(b)
}

// Sets the first places to the halves of the bytes, and tells whether all are levels.
fn halve(bytes: &[u8], out: &mut [u8]) -> bool
    requires room { length bytes.now ≤ length out.old }
    requires zeros { (k : ℕ) → slice_index out.old k ≡ 0 }
    ensures len { length out.new ≡ length out.old }
    ensures halves { result ≡ true → (k : ℕ) → 2 * slice_index out.new k ≡ slice_index bytes.now k }
    ensures small { result ≡ true → AreAtMost 3 out.new }
{
    let mut bits = 0;
    for k in 0..bytes.len() {
        let byte = bytes[k];
        bits |= byte;
        out[k] = byte / 2;
    }
    bits & OTHER == 0
}

// The halves of two levels in a byte.
#[inline(always)]
fn joined(near: u8, far: u8) -> u8
    ensures near { IsLevel near → IsLevel far → 2 * (result % 64) ≡ near }
    ensures far { IsLevel near → IsLevel far → 2 * (result / 64) ≡ far }
{
    (near / 2) | (far << 5)
}

// Sets each of the first `count` places to the halves of the byte there and of that `far` places on, and tells whether all are levels.
fn join_halves(bytes: &[u8], far: usize, count: usize, out: &mut [u8]) -> bool
    requires far { count + far ≤ length bytes.now }
    requires room { count ≤ length out.old }
    requires zeros { (k : ℕ) → slice_index out.old k ≡ 0 }
    ensures len { length out.new ≡ length out.old }
    ensures near { result ≡ true → (k : ℕ) → k < count → 2 * (slice_index out.new k % 64) ≡ slice_index bytes.now k }
    ensures far { result ≡ true → (k : ℕ) → k < count → 2 * (slice_index out.new k / 64) ≡ slice_index bytes.now (far + k) }
    ensures fields { result ≡ true → AreFields out.new }
{
    let mut bits = 0;
    for k in 0..count {
        let first = bytes[k];
        let second = bytes[far + k];
        bits |= first | second;
        out[k] = joined(first, second);
    }
    bits & OTHER == 0
}

// The sums at two lags from `lag` on and at two that are `far` places on, by the halves of a's bytes and by those of b's, joined.
#[inline(always)]
fn four_level_sums(
    a: &[u8],
    b: &[u8],
    mine: &[u8],
    theirs: &[u8],
    lag: usize,
    far: usize,
) -> [u32; 4]
    requires size { length a.now ≤ MOST }
    requires mine { (k : ℕ) → 2 * slice_index mine.now k ≡ slice_index a.now k }
    requires small { AreAtMost 3 mine.now }
    requires mine_len { length mine.now ≡ MOST }
    requires theirs_len { length theirs.now ≡ WIDE }
    requires lag { lag + 2 ≤ far }
    requires far { far ≤ 512 }
    requires room { 2 * far + length a.now ≤ length b.now + 1 }
    requires near { (k : ℕ) → k < length a.now + far - 1 → 2 * (slice_index theirs.now k % 64) ≡ slice_index b.now k }
    requires upper { (k : ℕ) → k < length a.now + far - 1 → 2 * (slice_index theirs.now k / 64) ≡ slice_index b.now (far + k) }
    requires fields { AreFields theirs.now }
    ensures first { (slice_index result 0 ≡ lag_sum a.now b.now lag (length a.now)) × (slice_index result 1 ≡ lag_sum a.now b.now (lag + 1) (length a.now)) }
    ensures second { (slice_index result 2 ≡ lag_sum a.now b.now (far + lag) (length a.now)) × (slice_index result 3 ≡ lag_sum a.now b.now (far + (lag + 1)) (length a.now)) }
{
    let count = (a.len() + TRIPLE - 1) / TRIPLE;
    let sums = field_sums(mine, theirs, lag, count);
    [4 * sums[0], 4 * sums[1], 4 * sums[2], 4 * sums[3]]
}

/// Tells whether rows are levels, of so many samples and lags that sums by their halves are faster. If so, each place is set to the sum
/// at its lag; else places may have anything.
pub(crate) fn level_sums(a: &[u8], b: &[u8], out: &mut [u32]) -> bool
    requires room { length a.now + length out.old ≤ length b.now + 1 }
    ensures len { length out.new ≡ length out.old }
    ensures sums { result ≡ true → (i : ℕ) → i < length out.old → slice_index out.new i ≡ lag_sum a.now b.now i (length a.now) }
{
    if !may_be_halved(a, b, out.len()) {
        return false;
    }
    let mut mine = [0; MOST];
    let mut theirs = [0; WIDE];
    let twos = out.len() / 4;
    let far = 2 * twos;
    if !halve(a, &mut mine) || !join_halves(b, far, a.len() + far - 1, &mut theirs) {
        return false;
    }
    for q in 0..twos {
        let lag = 2 * q;
        let sums = four_level_sums(a, b, &mine, &theirs, lag, far);
        out[lag] = sums[0];
        out[lag + 1] = sums[1];
        out[far + lag] = sums[2];
        out[far + (lag + 1)] = sums[3];
    }
    for i in 4 * twos..out.len() {
        out[i] = one_sum(a, b, i);
    }
    true
}
