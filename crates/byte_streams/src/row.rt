//! A row of samples, by as few streams as its values ask for.
ghost use Rattle.byte_streams.specs.Levels.{AreLevels};

use crate::streams::Streams;
use byte_lags::{Stream, Weights};

/// Values that are all there and have one direction or its opposite: a level for each, and how many times it is in the real part and
/// in the imaginary one.
#[derive(Clone, Copy)]
pub struct Levels<'a> {
    pub level: Stream<'a>,
    pub direction: Weights,
    ghost levels: { AreLevels level direction },
}

/// The values of a row of samples: both components of each, or the levels of all, where they have one direction.
#[derive(Clone, Copy)]
pub enum Row<'a> {
    Turning(Streams<'a>),
    Still(Levels<'a>),
}

impl<'a> Row<'a> {
    ghost use Rattle.std.specs.Prelude.{◌≡◌};
    ghost use Rattle.byte_streams.specs.Rows.{bias_in, row_len};

    /// How many samples there are.
    pub fn len(&self) -> usize
        ensures { result ≡ row_len self.now }
    {
        match self {
            Row::Turning(streams) => streams.there.len(),
            Row::Still(levels) => levels.level.bytes.len(),
        }
    }

    /// What the bytes of a component or a level are more than it.
    pub fn bias(&self) -> u8
        ensures { result ≡ bias_in self.now }
    {
        match self {
            Row::Turning(streams) => streams.bias,
            Row::Still(levels) => levels.level.bias,
        }
    }
}
