//! Words at the front of a text.
ghost use Rattle.std.specs.Prelude.{◌≡◌, ◌++◌, decimal, MatchOption};
ghost use Rattle.std.specs.Fmt.{signed_decimal};
ghost use Rattle.fringe_search.specs.{Certificates.{mark_text, place_text}, Taken.{Lacks}};

use crate::claim::Mark;
use crate::places::SeriesAt;
use itoa::Buffer;

// The text behind a word, where it begins with that.
pub(crate) fn strip<'a>(text: &'a [u8], word: &[u8]) -> Option<&'a [u8]>
    ensures { MatchOption result (Lacks text.now word.now) (λ rest. text.now ≡ word.now ++ rest.now) }
{
    text.strip_prefix(word)
}

// The text behind a number and a word.
pub(crate) fn strip_number<'a>(text: &'a [u8], n: u32, word: &[u8]) -> Option<&'a [u8]>
    ensures { MatchOption result (Lacks text.now (decimal n ++ word.now)) (λ rest. text.now ≡ (decimal n ++ word.now) ++ rest.now) }
{
    let middle = strip(text, Buffer::new().format(n).as_bytes())?;
    strip(middle, word)
}

// The same of a number that may be below zero.
pub(crate) fn strip_signed<'a>(text: &'a [u8], z: i64, word: &[u8]) -> Option<&'a [u8]>
    ensures { MatchOption result (Lacks text.now (signed_decimal z ++ word.now)) (λ rest. text.now ≡ (signed_decimal z ++ word.now) ++ rest.now) }
{
    let middle = strip(text, Buffer::new().format(z).as_bytes())?;
    strip(middle, word)
}

// The text behind the front of a peak's line.
pub(crate) fn strip_place<'a>(text: &'a [u8], at: SeriesAt) -> Option<&'a [u8]>
    ensures { MatchOption result (Lacks text.now (place_text at)) (λ rest. text.now ≡ place_text at ++ rest.now) }
{
    let scan = strip(text, b"peak ")?;
    let product = strip_number(scan, at.scan, b" ")?;
    let baseline = strip_number(product, at.product, b" ")?;
    strip_number(baseline, at.baseline, b" ")
}

// How a lag's line ends.
pub(crate) fn word_of(mark: Mark) -> &'static [u8]
    ensures { result.now ≡ mark_text mark }
{
    match mark {
        Mark::Bound => b" bound\n",
        Mark::Grid => b" grid\n",
    }
}
