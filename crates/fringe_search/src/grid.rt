//! The grid that is searched, and its best point.
ghost use Rattle.std.specs.Prelude.{◌<◌, ◌≤◌};

/// The rates from `-rates` to `rates`: a rate r turns by r / (16 * divide) of a turn each integration. `rates` is at most
/// 4,096, `divide` 1 to 65,536.
#[derive(Clone, Copy, Debug)]
pub struct Grid {
    pub rates: u32,
    pub divide: u32,
    ghost rates_within: { rates ≤ 4096 },
    ghost divide_some: { 0 < divide },
    ghost divide_within: { divide ≤ 65536 },
}

/// A point of a grid: its lag in samples, its rate, and the sum of the turned cells there, in 2^-14 of a cell's units.
#[derive(Clone, Copy, Debug)]
pub struct Peak {
    pub lag: i32,
    pub rate: i32,
    pub re: i128,
    pub im: i128,
}
