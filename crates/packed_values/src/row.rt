//! A row of values, and its streams from any place on.
use crate::codes::row_of;
use crate::kinds::alike_from;
use crate::words::Words;
use byte_streams::{Row, Streams};

/// The values of a row of samples: a value code each, or a word each.
#[derive(Clone, Copy)]
pub enum Packed<'a> {
    Codes(&'a [u8]),
    Words(Words<'a>),
}

impl<'a> Packed<'a> {
    ghost use Rattle.std.specs.Prelude.{◌≡◌, ◌<◌, ◌≤◌, ◌+◌, ◌^◌, ℕ, pos, ◌+ℤ◌, true, length, take, unsigned_abs};
    ghost use Rattle.byte_streams.specs.Rows.{bias_in, row_len, row_value};
    ghost use Rattle.packed_values.specs.{From.{value_from}, Kinds.{AllCodes, is_still}, Packed.{values_of}, Tables.{IsAlong, IsNarrow}};

    /// How many samples there are.
    pub fn len(&self) -> usize
        ensures { result ≡ length (values_of self.now) }
    {
        match self {
            Packed::Codes(codes) => codes.len(),
            Packed::Words(row) => row.words.len(),
        }
    }

    /// The first `count` samples.
    pub fn first(&self, count: usize) -> Packed<'a>
        requires { count ≤ length (values_of self.now) }
        ensures { values_of result ≡ take count (values_of self.now) }
    {
        match self {
            Packed::Codes(codes) => Packed::Codes(&codes[..count]),
            Packed::Words(row) => Packed::Words(Words {
                words: &row.words[..count],
            }),
        }
    }

    /// How many samples from place `start` on, of at most `most`, are of one kind: all there and of one direction or its opposite, or
    /// all without a value. Of words it is `most`: it is not looked for. A stretch that is cut there makes a row of levels. It is a
    /// hint: that it is at most `most` is all that is promised. A wrong one costs time, and never a cell.
    pub fn alike_from(&self, start: i64, most: usize) -> usize
        requires start { unsigned_abs start ≤ 2 ^ 41 }
        requires size { length (values_of self.now) ≤ 2 ^ 41 }
        ensures { result ≤ most }
    {
        match self {
            Packed::Codes(codes) => alike_from(codes, start, most),
            Packed::Words(_) => most,
        }
    }

    /// The row of the values from place `start` on, in room for as many: the levels of codes that are all there and have one direction
    /// or its opposite, and else both components. Before the first place and past the last one there are none. The bias is 3 where no
    /// code that is cut out has a larger component, else 15.
    pub fn row_from<'r>(
        &self,
        start: i64,
        re: &'r mut [u8],
        im: &'r mut [u8],
        there: &'r mut [u8],
    ) -> Row<'r>
        requires start { unsigned_abs start ≤ 2 ^ 41 }
        requires size { length (values_of self.now) ≤ 2 ^ 41 }
        requires re { length re.old ≡ length there.old }
        requires im { length im.old ≡ length there.old }
        ensures len { row_len result ≡ length there.old }
        ensures values { (k : ℕ) → k < length there.old → row_value result k ≡ value_from (values_of self.now) (start +ℤ pos k) }
        ensures still { (d : ℕ) → 0 < length there.old → AllCodes (IsAlong d) self.now start (length there.old) → is_still result ≡ true }
        ensures narrow { AllCodes IsNarrow self.now start (length there.old) → bias_in result ≡ 3 }
    {
        match self {
            Packed::Codes(codes) => row_of(codes, start, re, im, there),
            Packed::Words(row) => {
                let bias = row.unpack_from(start, re, im, there);
                Row::Turning(Streams {
                    re,
                    im,
                    there,
                    bias,
                })
            }
        }
    }
}
