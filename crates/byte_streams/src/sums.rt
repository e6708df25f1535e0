//! Sums and differences of components.
ghost use Rattle.std.specs.Prelude.{◌≡◌, ◌≤◌, ◌+◌, ◌*◌, ◌+ℤ◌, ◌-ℤ◌, length};
ghost use Rattle.byte_sums.specs.Sums.{AreAtMost};
ghost use Rattle.byte_lags.specs.Streams.{IsBiased};
ghost use Rattle.byte_streams.specs.{Values.{re_of, im_of}, Streams.{value_in}};

use crate::streams::Streams;

/// Sets the bytes to the sums of the components, with twice the bias.
pub fn component_sums(s: &Streams, out: &mut [u8])
    requires { length out.old ≡ length s.now.there.now }
    ensures len { length out.new ≡ length s.now.there.now }
    ensures numbers { IsBiased (2 * s.now.bias) (λ k. re_of (value_in s.now k) +ℤ im_of (value_in s.now k)) (length out.new) out.new }
    ensures small { AreAtMost (4 * s.now.bias) out.new }
{
    for k in 0..out.len() {
        out[k] = s.re[k] + s.im[k];
    }
}

/// Sets the bytes to the differences of the components, with twice the bias.
pub fn component_differences(s: &Streams, out: &mut [u8])
    requires { length out.old ≡ length s.now.there.now }
    ensures len { length out.new ≡ length s.now.there.now }
    ensures numbers { IsBiased (2 * s.now.bias) (λ k. re_of (value_in s.now k) -ℤ im_of (value_in s.now k)) (length out.new) out.new }
    ensures small { AreAtMost (4 * s.now.bias) out.new }
{
    for k in 0..out.len() {
        out[k] = s.re[k] + (2 * s.bias - s.im[k]);
    }
}
