//! The streams of a row of samples.
ghost use Rattle.byte_streams.specs.Values.{AreStreams};

use byte_lags::Stream;

/// The values of a row of samples: their real and their imaginary components, each with the bias, which makes it positive, and 1 where
/// there is a value, 0 where there is none.
#[derive(Clone, Copy)]
pub struct Streams<'a> {
    pub re: &'a [u8],
    pub im: &'a [u8],
    pub there: &'a [u8],
    pub bias: u8,
    ghost streams: { AreStreams bias re.now im.now there.now },
}

impl<'a> Streams<'a> {
    ghost use Rattle.std.specs.Prelude.{◌≡◌, ◌≤◌, ◌*◌, ◌+◌, ◌<◌, ℕ, length};
    ghost use Rattle.byte_lags.specs.Streams.{IsBiased};
    ghost use Rattle.byte_sums.specs.Sums.{AreAtMost};
    ghost use Rattle.byte_streams.specs.{Values.{re_of, im_of}, Streams.{value_in}};

    /// The real components.
    pub fn reals(&self) -> Stream<'a>
        ensures len { length result.bytes.now ≡ length self.now.there.now }
        ensures bias { result.bias ≡ self.now.bias }
        ensures numbers { IsBiased result.bias (λ k. re_of (value_in self.now k)) (length result.bytes.now) result.bytes.now }
        ensures small { AreAtMost (2 * self.now.bias) result.bytes.now }
    {
        Stream {
            bytes: self.re,
            bias: self.bias,
        }
    }

    /// The imaginary components.
    pub fn imaginaries(&self) -> Stream<'a>
        ensures len { length result.bytes.now ≡ length self.now.there.now }
        ensures bias { result.bias ≡ self.now.bias }
        ensures numbers { IsBiased result.bias (λ k. im_of (value_in self.now k)) (length result.bytes.now) result.bytes.now }
        ensures small { AreAtMost (2 * self.now.bias) result.bytes.now }
    {
        Stream {
            bytes: self.im,
            bias: self.bias,
        }
    }
}
