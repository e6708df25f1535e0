//! Whether fields are written as the word of their line asks.
ghost use Rattle.std.specs.Prelude.{◌≡◌, map};
ghost use Rattle.job_lines.specs.Words.{is_written, are_written};

use crate::FieldKind;
use num_time::{NumFault, TimeFault, decimal, vex_second};

/// Whether a field is written so; a number may be too large, and a time may name a day that is not.
pub fn is_written(kind: FieldKind, field: &[u8]) -> bool
    ensures { result ≡ is_written kind field.now }
{
    match kind {
        FieldKind::Text => true,
        FieldKind::Number => matches!(decimal(field, 0), Ok(_) | Err(NumFault::TooLarge)),
        FieldKind::Time => !matches!(vex_second(field), Err(TimeFault::Shape)),
        FieldKind::Side => field == b"U".as_slice() || field == b"L".as_slice(),
        FieldKind::Legacy => field == b"legacy".as_slice(),
    }
}

/// Whether the fields are those that are needed, then some of the further ones from the first on, each
/// written so.
pub fn are_written(needed: &[FieldKind], further: &[FieldKind], fields: &[&[u8]]) -> bool
    ensures { result ≡ are_written needed.now further.now (map (λ field. field.now) fields.now) }
{
    match (needed.split_first(), fields.split_first()) {
        (Some((kind, needed)), Some((field, fields))) => {
            is_written(*kind, field) && are_written(needed, further, fields)
        }
        (Some(_), None) => false,
        (None, None) => true,
        (None, Some((field, fields))) => match further.split_first() {
            Some((kind, further)) => is_written(*kind, field)
                && are_written(needed, further, fields),
            None => false,
        },
    }
}
