//! The statements under a key, and those that set up a station.
ghost use Rattle.std.specs.Prelude.{◌≡◌, filter, option_copied, option_map};
ghost use Rattle.std.specs.List.{list_any};
ghost use Rattle.read_steps.specs.Steps.{seen};
ghost use Rattle.vex_schedule.specs.Statements.{has_key, only, is_some_text, is_just, covers, is_setup, Finds};

use crate::fault::{SchedFault, SchedKind};
use crate::values::{is_text, sole};
use num_time::Name;
use vex_reader::{Statement, Value};

/// The first statement with a key, and those behind it.
pub(crate) fn first_with<'a>(
    statements: &'a [Statement],
    key: &[u8],
) -> Option<(&'a Statement, &'a [Statement])>
    ensures { Finds (has_key key.now) statements.now (option_map (λ found. (found.0.now, found.1.now)) result) }
{
    for (i, statement) in statements.iter().enumerate() {
        if is_text(statement.key.bytes(), key) {
            return Some((statement, &statements[i + 1..]));
        }
    }
    None
}

/// The only statement with a key, in a scan or def at a place.
#[tactic(auto, unfolding(crate::specs::Statements::only))]
pub(crate) fn only_with<'a>(
    statements: &'a [Statement],
    key: &[u8],
    at: u64,
) -> Result<&'a Statement, SchedFault>
    ensures { seen (λ statement. statement.now) result ≡ only at (filter (has_key key.now) statements.now) }
{
    let Some((first, behind)) = first_with(statements, key) else {
        return Err(SchedFault::new(SchedKind::MissingStatement, at));
    };
    match first_with(behind, key) {
        None => Ok(first),
        Some((second, _)) => Err(SchedFault::new(SchedKind::DoubleStatement, second.at)),
    }
}

/// Whether a text is there and is the wanted one.
pub(crate) fn is_some_text(text: Option<&Name>, wanted: &[u8]) -> bool
    ensures { result ≡ is_some_text wanted.now (option_copied text.entry) }
{
    match text {
        Some(text) => is_text(text.bytes(), wanted),
        None => false,
    }
}

// Whether a value is exactly the one word.
fn is_just(value: &Value, word: &[u8]) -> bool
    ensures { result ≡ is_just word.now value.now }
{
    is_some_text(sole(value.items()), word)
}

// Whether one of some values is exactly the one word.
fn any_is_just(values: &[Value], word: &[u8]) -> bool
    ensures { result ≡ list_any (is_just word.now) values.now }
{
    values.iter().any(|value| is_just(value, word))
}

// Whether the values of a ref cover a station.
#[tactic(auto, unfolding(crate::specs::Statements::covers))]
fn covers(values: &[Value], key: &[u8]) -> bool
    ensures { result ≡ covers key.now values.now }
{
    if values.len() == 1 {
        return true;
    }
    !values.is_empty() && any_is_just(&values[1..], key)
}

// Whether a statement sets up a station.
#[tactic(auto, unfolding(crate::specs::Statements::is_setup))]
fn is_setup(statement: &Statement, key: &[u8]) -> bool
    ensures { result ≡ is_setup key.now statement.now }
{
    is_some_text(statement.target.as_ref(), b"$FREQ") && covers(statement.values.items(), key)
}

// The first statement that sets up a station, and those behind it.
fn first_setup<'a>(
    statements: &'a [Statement],
    key: &[u8],
) -> Option<(&'a Statement, &'a [Statement])>
    ensures { Finds (is_setup key.now) statements.now (option_map (λ found. (found.0.now, found.1.now)) result) }
{
    for (i, statement) in statements.iter().enumerate() {
        if is_setup(statement, key) {
            return Some((statement, &statements[i + 1..]));
        }
    }
    None
}

/// The only statement that sets up a station, in a mode at a place, by a walk over all of them.
#[tactic(auto, unfolding(crate::specs::Statements::only))]
pub(crate) fn only_setup<'a>(
    statements: &'a [Statement],
    key: &[u8],
    at: u64,
) -> Result<&'a Statement, SchedFault>
    ensures { seen (λ statement. statement.now) result ≡ only at (filter (is_setup key.now) statements.now) }
{
    let Some((first, behind)) = first_setup(statements, key) else {
        return Err(SchedFault::new(SchedKind::MissingStatement, at));
    };
    match first_setup(behind, key) {
        None => Ok(first),
        Some((second, _)) => Err(SchedFault::new(SchedKind::DoubleStatement, second.at)),
    }
}
