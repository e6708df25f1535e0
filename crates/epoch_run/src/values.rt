//! Streams as the values of a scan.
ghost use Rattle.std.specs.Prelude.{◌≡◌};

use corr_model::Values;
use station_stream::Stream;

/// The values of some streams: station `a` is the stream at place `a`.
#[derive(Clone, Copy)]
pub(crate) struct Streams<'a> {
    pub streams: &'a [Stream],
}

impl Values for Streams<'_> {
    ghost use Rattle.epoch_run.specs.Streamed.{streamed};

    ghost samples = { λ v. streamed v.streams.now };

    fn z(&self, station: u32, chan: u32, n: i64) -> Option<(i8, i8)> {
        match self.streams.get(station as usize) {
            Some(stream) => stream.value(chan, n),
            None => None,
        }
    }
}
