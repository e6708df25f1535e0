//! Numbers among the words.
ghost use Rattle.std.specs.Prelude.{◌≡◌, ◌≤◌, ◌<◌, IfOk};
ghost use Rattle.num_time.specs.Numerals.{are_digits};
ghost use Rattle.run_words.specs.{Numbers.{is_count, number_in, within, epoch_in, workers_in, piece_in}, Orders.{part_in}};

use crate::fault::WordsFault;

// Whether each byte is a decimal digit.
fn are_digits(text: &[u8]) -> bool
    ensures { result ≡ are_digits text.now }
{
    text.iter().all(|c| c.is_ascii_digit())
}

// Whether a text is 1 to 20 digits.
fn is_count(text: &str) -> bool
    ensures { result ≡ is_count text.now }
{
    let bytes = text.as_bytes();
    1 <= bytes.len() && bytes.len() <= 20 && are_digits(bytes)
}

/// The number from `least` to `most` that a text writes.
pub(crate) fn number_in(text: &str, least: u64, most: u64) -> Result<u64, WordsFault>
    ensures number { result ≡ number_in least most text.now }
    ensures range { IfOk result (λ number. (least ≤ number) × (number ≤ most)) }
{
    if !is_count(text) {
        return Err(WordsFault::Value);
    }
    match text.parse::<u64>() {
        Ok(number) => within(number, least, most),
        Err(_) => Err(WordsFault::Value),
    }
}

// The number, where it is in its range.
fn within(number: u64, least: u64, most: u64) -> Result<u64, WordsFault>
    ensures number { result ≡ within least most number }
    ensures range { IfOk result (λ n. (least ≤ n) × (n ≤ most)) }
{
    if least <= number && number <= most {
        Ok(number)
    } else {
        Err(WordsFault::Value)
    }
}

/// The number of workers that a text writes.
pub(crate) fn workers_in(text: &str) -> Result<u32, WordsFault>
    ensures number { result ≡ workers_in text.now }
    ensures range { IfOk result (λ workers. (1 ≤ workers) × (workers ≤ 64)) }
{
    let workers = number_in(text, 1, 64)?;
    Ok(workers as u32)
}

/// The samples of an epoch that a text writes.
pub(crate) fn epoch_in(text: &str) -> Result<u64, WordsFault>
    ensures number { result ≡ epoch_in text.now }
    ensures range { IfOk result (λ epoch. (1 ≤ epoch) × (epoch ≤ 4194304)) }
{
    number_in(text, 1, 4_194_304)
}

/// The samples of a piece that a text writes.
pub(crate) fn piece_in(text: &str) -> Result<u64, WordsFault>
    ensures number { result ≡ piece_in text.now }
    ensures range { IfOk result (λ piece. (64 ≤ piece) × (piece ≤ 4194304)) }
{
    number_in(text, 64, 4_194_304)
}

/// The numbers of a part's first integration, and of the first one behind it, that two texts write.
#[tactic(auto, unfolding(crate::specs::Orders::part_in))]
pub(crate) fn part_in(from: &str, to: &str) -> Result<(u64, u64), WordsFault>
    ensures numbers { result ≡ part_in from.now to.now }
    ensures some { IfOk result (λ part. part.0 < part.1) }
{
    let from = number_in(from, 0, u64::MAX)?;
    let to = number_in(to, 0, u64::MAX)?;
    if from < to {
        Ok((from, to))
    } else {
        Err(WordsFault::Value)
    }
}
