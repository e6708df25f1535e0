//! The delays at which the whole samples are those of one delay.
ghost use Rattle.std.specs.Prelude.{◌≡◌, ◌^◌, ◌<◌, pos, ◌+ℤ◌, ◌-ℤ◌, unsigned_abs};
ghost use Rattle.std.specs.Int.{int_rem_euclid};
ghost use Rattle.corr_model.specs.Delay.{nearest};
ghost use Rattle.delay_line.specs.Interval.{IsIntervalOf};

// The delays from `least` up to, not including, `end`.
#[derive(Clone, Copy)]
pub(crate) struct Interval {
    pub(crate) least: i128,
    pub(crate) end: i128,
}

// The delay itself, so many below it and so many above it.
fn around(delay: i64, below: u64, above: u64) -> Interval
    ensures least { result.least ≡ delay -ℤ pos below }
    ensures end { result.end ≡ delay +ℤ pos above +ℤ pos 1 }
    ensures bound_least { unsigned_abs result.least < 2 ^ 90 }
    ensures bound_end { unsigned_abs result.end < 2 ^ 90 }
{
    let delay = i128::from(delay);
    Interval {
        least: delay - i128::from(below),
        end: delay + i128::from(above) + 1,
    }
}

// How far a delay is past the first one of the same whole samples.
fn past_whole(delay: i64) -> u64
    requires { unsigned_abs delay < 2 ^ 59 }
    ensures value { int_rem_euclid (delay +ℤ pos (2 ^ 31)) (pos (2 ^ 32)) ≡ pos result }
    ensures bound { result < 2 ^ 32 }
{
    (delay + (1 << 31)).rem_euclid(1 << 32) as u64
}

// The delays of the same whole samples.
pub(crate) fn whole_interval(delay: i64) -> Interval
    requires { unsigned_abs delay < 2 ^ 59 }
    ensures interval { IsIntervalOf nearest delay result.least result.end }
    ensures bound_least { unsigned_abs result.least < 2 ^ 90 }
    ensures bound_end { unsigned_abs result.end < 2 ^ 90 }
{
    let past = past_whole(delay);
    around(delay, past, (1 << 32) - 1 - past)
}
