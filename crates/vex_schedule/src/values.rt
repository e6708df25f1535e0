//! What the values of a statement say.
ghost use Rattle.std.specs.Prelude.{◌≡◌, ◌<◌, ◌^◌, slice_get, bytes_eq, IfOk, IfSome, option_copied};
ghost use Rattle.num_time.specs.Times.{IsSecond};
ghost use Rattle.vex_schedule.specs.Values.{sole, is_word, word_of, is_name, only_word, start_in, rate_in, word_at, offset_at, frequency_at, stay_in, side_at, without_sign, id_at, chan_in};
ghost use Rattle.scan_list.specs.Sound.{IsChan};

use crate::quantities::{frequency, offset, rate};
use crate::stay::Stay;
use num_time::{Name, vex_second};
use scan_list::Chan;
use std::alloc::{AllocError, Global};
use vex_reader::Value;

// The one thing of a list that has exactly one.
pub(crate) fn sole<T>(things: &[T]) -> Option<&T>
    ensures { option_copied result ≡ sole things.now }
{
    if things.len() == 1 {
        Some(&things[0])
    } else {
        None
    }
}

// Whether a text is this one.
pub(crate) fn is_text(text: &[u8], wanted: &[u8]) -> bool
    ensures { result ≡ bytes_eq text.now wanted.now }
{
    text == wanted
}

// Whether a text is a word, and no quoted text.
fn is_word(text: &[u8]) -> bool
    ensures { result ≡ is_word text.now }
{
    text.is_empty() || text[0] != b'"'
}

// The word of a value that is one word.
#[tactic(auto, unfolding(crate::specs::Values::word_of))]
fn word(value: &Value) -> Option<&[u8]>
    ensures { option_copied result ≡ word_of value.now }
{
    let text = sole(value.items())?.bytes();
    if is_word(text) { Some(text) } else { None }
}

// Whether a name has a length that is allowed.
pub(crate) fn is_name(name: &[u8]) -> bool
    ensures { result ≡ is_name name.now }
{
    0 < name.len() && name.len() <= 255
}

// The value at a place, counted from 0.
fn value_at(values: &[Value], i: usize) -> Option<&Value>
    ensures { option_copied result ≡ slice_get values.now i }
{
    values.get(i)
}

/// The word of the value at a place.
#[tactic(auto, unfolding(crate::specs::Values::word_at))]
pub(crate) fn word_at(values: &[Value], i: usize) -> Option<&[u8]>
    ensures { option_copied result ≡ word_at values.now i }
{
    word(value_at(values, i)?)
}

/// The word of a statement that has one value of one word.
#[tactic(auto, unfolding(crate::specs::Values::only_word))]
pub(crate) fn only_word(values: &[Value]) -> Option<&[u8]>
    ensures { option_copied result ≡ only_word values.now }
{
    word(sole(values)?)
}

/// The second at which a scan starts.
#[tactic(auto, unfolding(crate::specs::Values::start_in))]
pub(crate) fn start_in(values: &[Value]) -> Option<i64>
    ensures value { result ≡ start_in values.now }
    ensures years { IfSome result IsSecond }
{
    vex_second(only_word(values)?).ok()
}

/// The sample rate of a setup.
#[tactic(auto, unfolding(crate::specs::Values::rate_in))]
pub(crate) fn rate_in(values: &[Value]) -> Option<u32>
    ensures value { result ≡ rate_in values.now }
    ensures bound { IfSome result (λ rate. 0 < rate) }
{
    rate(sole(values)?)
}

// The offset at a place.
#[tactic(auto, unfolding(crate::specs::Values::offset_at))]
fn offset_at(values: &[Value], i: usize) -> Option<i64>
    ensures { result ≡ offset_at values.now i }
{
    offset(value_at(values, i)?)
}

// The frequency at a place.
#[tactic(auto, unfolding(crate::specs::Values::frequency_at))]
fn frequency_at(values: &[Value], i: usize) -> Option<u64>
    ensures value { result ≡ frequency_at values.now i }
    ensures bound { IfSome result (λ hertz. hertz < 2 ^ 40) }
{
    frequency(value_at(values, i)?)
}

/// What a station is given in a scan.
#[tactic(auto, unfolding(crate::specs::Values::stay_in))]
pub(crate) fn stay_in(alloc: Global, values: &[Value]) -> Result<Option<Stay>, AllocError>
    ensures { IfOk result (λ stay. stay ≡ stay_in values.now) }
{
    let Some(key) = word_at(values, 0) else {
        return Ok(None);
    };
    let Some(from_us) = offset_at(values, 1) else {
        return Ok(None);
    };
    let Some(to_us) = offset_at(values, 2) else {
        return Ok(None);
    };
    let key = Name::new(alloc, key)?;
    Ok(Some(Stay {
        key,
        from_us,
        to_us,
    }))
}

// Whether a side is the upper one.
#[tactic(auto, unfolding(crate::specs::Values::side_at))]
fn side_at(values: &[Value], i: usize) -> Option<bool>
    ensures { result ≡ side_at values.now i }
{
    let side = word_at(values, i)?;
    if is_text(side, b"U") {
        Some(true)
    } else if is_text(side, b"L") {
        Some(false)
    } else {
        None
    }
}

// A link without its sign.
fn without_sign(link: &[u8]) -> &[u8]
    ensures { result.now ≡ without_sign link.now }
{
    if !link.is_empty() && link[0] == b'&' {
        &link[1..]
    } else {
        link
    }
}

// The name of a channel.
#[tactic(auto, unfolding(crate::specs::Values::id_at))]
fn id_at(values: &[Value], i: usize) -> Option<&[u8]>
    ensures { option_copied result ≡ id_at values.now i }
{
    let id = without_sign(word_at(values, i)?);
    if is_name(id) { Some(id) } else { None }
}

/// What a channel is given in a setup.
#[tactic(auto, unfolding(crate::specs::Values::chan_in))]
pub(crate) fn chan_in(alloc: Global, values: &[Value]) -> Result<Option<Chan>, AllocError>
    ensures value { IfOk result (λ chan. chan ≡ chan_in values.now) }
    ensures sound { IfOk result (λ chan. IfSome chan IsChan) }
{
    let Some(hertz) = frequency_at(values, 1) else {
        return Ok(None);
    };
    let Some(upper) = side_at(values, 2) else {
        return Ok(None);
    };
    let Some(band_hertz) = frequency_at(values, 3) else {
        return Ok(None);
    };
    let Some(id) = id_at(values, 4) else {
        return Ok(None);
    };
    let id = Name::new(alloc, id)?;
    Ok(Some(Chan {
        id,
        hertz,
        upper,
        band_hertz,
    }))
}
