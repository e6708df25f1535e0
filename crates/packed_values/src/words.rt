//! A row of values by words, and its streams from any place on.
ghost use Rattle.std.specs.Prelude.{◌≡◌, ◌<◌, ◌≤◌, ◌^◌, ℕ, pos, ◌+ℤ◌, length, slice_index, unsigned_abs};
ghost use Rattle.packed_values.specs.Words.{AreWords, field_of, word_at};

use crate::places::places;
use crate::word::NONE;

/// The values of a row of samples, a word each.
#[derive(Clone, Copy)]
pub struct Words<'a> {
    pub words: &'a [u16],
    ghost packed: { AreWords words.now },
}

// The five bits of a word from bit `shift` on.
#[inline(always)]
fn field(word: u16, shift: u32) -> u8
    requires { shift ≤ 10 }
    ensures { result ≡ field_of shift word }
{
    ((word >> shift) % 32) as u8
}

// Sets each byte to a field of a row's word as many places on from `start`, and to that of no value outside the row.
#[inline(always)]
fn cut_field(words: &[u16], start: i64, shift: u32, out: &mut [u8])
    requires start { unsigned_abs start ≤ 2 ^ 41 }
    requires size { length words.now ≤ 2 ^ 41 }
    requires shift { shift ≤ 10 }
    ensures len { length out.new ≡ length out.old }
    ensures fields { (k : ℕ) → k < length out.old → slice_index out.new k ≡ field_of shift (word_at words.now NONE (start +ℤ pos k)) }
{
    let (before, from) = places(start);
    let outside = field(NONE, shift);
    let first = before.min(out.len());
    let last = (first + words.len().saturating_sub(from)).min(out.len());
    for k in 0..first {
        out[k] = outside;
    }
    for k in first..last {
        out[k] = field(words[from + (k - before)], shift);
    }
    for k in last..out.len() {
        out[k] = outside;
    }
}

impl<'a> Words<'a> {
    ghost use Rattle.std.specs.Prelude.{◌≡◌, ◌<◌, ◌≤◌, ◌+◌, ◌^◌, ℕ, pos, ◌+ℤ◌, length, map, slice_index, unsigned_abs};
    ghost use Rattle.byte_streams.specs.Values.{AreStreams, byte_value};
    ghost use Rattle.packed_values.specs.{Words.{word_value}, From.{value_from}};

    // Fills streams with the values from place `start` on, and gives the bias of their components.
    pub(crate) fn unpack_from(
        &self,
        start: i64,
        re: &mut [u8],
        im: &mut [u8],
        there: &mut [u8],
    ) -> u8
        requires start { unsigned_abs start ≤ 2 ^ 41 }
        requires size { length self.now.words.now ≤ 2 ^ 41 }
        requires re { length re.old ≡ length there.old }
        requires im { length im.old ≡ length there.old }
        ensures len { length there.new ≡ length there.old }
        ensures streams { AreStreams result re.new im.new there.new }
        ensures values { (k : ℕ) → k < length there.old
            → byte_value result (slice_index re.new k) (slice_index im.new k) (slice_index there.new k) ≡ value_from (map word_value self.now.words.now) (start +ℤ pos k) }
    {
        cut_field(self.words, start, 0, re);
        cut_field(self.words, start, 5, im);
        cut_field(self.words, start, 10, there);
        15
    }
}
