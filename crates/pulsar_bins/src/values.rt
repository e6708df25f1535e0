//! What the fields behind a word say.
ghost use Rattle.std.specs.Prelude.{◌≡◌, ◌≤◌, map, IfSome};
ghost use Rattle.pulsar_bins.specs.Values.{count_in};

use job_lines::{field, number_within};

/// The number of bins in a turn.
#[tactic(auto, unfolding(crate::specs::Values::count_in))]
pub(crate) fn count_in(fields: &[&[u8]]) -> Option<u32>
    ensures value { result ≡ count_in (map (λ field. field.now) fields.now) }
    ensures range { IfSome result (λ n. (2 ≤ n) × (n ≤ 64)) }
{
    let count = number_within(2, 64, field(fields, 0))?;
    Some(count as u32)
}
