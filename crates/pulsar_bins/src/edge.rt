//! How long a bin stays the same on a line of phases.
ghost use Rattle.std.specs.Prelude.{◌≡◌, ℕ, ℤ, ◌*◌, ◌/◌, ◌^◌, ◌≤◌, ◌<◌, pos, ◌+ℤ◌, ◌-ℤ◌, ◌*ℤ◌, ◌≤ℤ◌, ◌<ℤ◌, unsigned_abs};
ghost use Rattle.std.specs.Int.{int_rem_euclid};
ghost use Rattle.corr_model.specs.Delay.{between};
ghost use Rattle.pulsar_bins.specs.Bin.{bin_of};

use delay_line::Line;

// How far a phase is past the first one of its bin, in units of 2^-32 bin.
fn past_edge(count: u32, phase: i64) -> u64
    ensures value { int_rem_euclid (phase *ℤ pos count) (pos (2 ^ 32)) ≡ pos result }
    ensures bound { result < 2 ^ 32 }
{
    (i128::from(phase) * i128::from(count)).rem_euclid(1 << 32) as u64
}

// So many units of 2^-32 bin in whole units of phase.
fn in_phase(part: u64, count: u32) -> i64
    requires some { 0 < count }
    requires small { part < 2 ^ 32 }
    ensures value { result ≡ pos (part / count) }
    ensures bound { result <ℤ pos (2 ^ 32) }
{
    (part / u64::from(count)) as i64
}

// The first phase of the bin of this one.
fn first_phase(count: u32, phase: i64) -> i64
    requires some { 0 < count }
    requires small { unsigned_abs phase < 2 ^ 59 }
    ensures begun { result ≤ℤ phase }
    ensures near { phase <ℤ (result +ℤ pos (2 ^ 32)) }
    ensures same { (y : ℤ) → result ≤ℤ y → y ≤ℤ phase → bin_of count y ≡ bin_of count phase }
{
    phase - in_phase(past_edge(count, phase), count)
}

// The first phase behind the bin of this one.
fn next_phase(count: u32, phase: i64) -> i64
    requires some { 0 < count }
    requires small { unsigned_abs phase < 2 ^ 59 }
    ensures after { phase <ℤ result }
    ensures near { result ≤ℤ (phase +ℤ pos (2 ^ 32)) }
    ensures same { (y : ℤ) → phase ≤ℤ y → y <ℤ result → bin_of count y ≡ bin_of count phase }
{
    phase + in_phase((1 << 32) - 1 - past_edge(count, phase), count) + 1
}

// How far one phase is behind another.
fn gap(low: i64, high: i64) -> u64
    requires { low ≤ℤ high }
    ensures { pos result ≡ high -ℤ low }
{
    (i128::from(high) - i128::from(low)) as u64
}

// A gap of phases times the samples from one knot to the next.
fn over_knot(gap: u64, knot: u32) -> u128
    ensures value { result ≡ gap * knot }
    ensures bound { result < 2 ^ 96 }
{
    u128::from(gap) * u128::from(knot)
}

// The end of the samples from `from` on, and before `to`, whose products with a slope are below `top`.
fn end_below(slope: u64, top: u128, from: u32, to: u32) -> u32
    requires begun { slope * from < top }
    requires order { from < to }
    ensures after { from < result }
    ensures within { result ≤ to }
    ensures below { (n : ℕ) → n < result → slope * n < top }
{
    if slope == 0 {
        return to;
    }
    ((top - 1) / u128::from(slope) + 1).min(u128::from(to)) as u32
}

// The first sample behind `from`, or else `to`, at which a line that does not fall has come to an edge.
fn rising_end(line: &Line, edge: i64, from: u32, to: u32) -> u32
    requires rises { line.now.first ≤ℤ line.now.next }
    requires order { from < to }
    requires within { to ≤ line.now.knot }
    requires begun { between line.now.first line.now.next from line.now.knot <ℤ edge }
    ensures after { from < result }
    ensures within { result ≤ to }
    ensures before { (n : ℕ) → n < result → between line.now.first line.now.next n line.now.knot <ℤ edge }
{
    let slope = gap(line.first, line.next);
    end_below(slope, over_knot(gap(line.first, edge), line.knot), from, to)
}

// The first sample behind `from`, or else `to`, at which a line that does not rise is before an edge.
fn falling_end(line: &Line, edge: i64, from: u32, to: u32) -> u32
    requires falls { line.now.next ≤ℤ line.now.first }
    requires order { from < to }
    requires within { to ≤ line.now.knot }
    requires begun { edge ≤ℤ between line.now.first line.now.next from line.now.knot }
    ensures after { from < result }
    ensures within { result ≤ to }
    ensures behind { (n : ℕ) → n < result → edge ≤ℤ between line.now.first line.now.next n line.now.knot }
{
    let slope = gap(line.next, line.first);
    end_below(
        slope,
        over_knot(gap(edge, line.first), line.knot) + 1,
        from,
        to,
    )
}

/// The end of a stretch of one bin from `from` on and before `to`, counted in samples past the line's first knot; the bin may
/// be the same behind it.
pub(crate) fn bin_end(line: &Line, count: u32, from: u32, to: u32) -> u32
    requires some { 0 < count }
    requires order { from < to }
    requires within { to ≤ line.now.knot }
    ensures after { from < result }
    ensures within { result ≤ to }
    ensures same { (n : ℕ) → from ≤ n → n < result
        → bin_of count (between line.now.first line.now.next n line.now.knot)
        ≡ bin_of count (between line.now.first line.now.next from line.now.knot) }
{
    let phase = line.delay(from);
    if line.first < line.next {
        rising_end(line, next_phase(count, phase), from, to)
    } else {
        falling_end(line, first_phase(count, phase), from, to)
    }
}
