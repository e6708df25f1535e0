//! Which refs of a mode set up which stations. Each statement of a mode is read once, however many stations
//! stand in scans of that mode.
ghost use Rattle.std.specs.Prelude.{◌≡◌, ◌≤◌, ◌<◌, ℕ, List, [], ◌∷◌, length, drop, filter, slice_get, codes, Some, IfOk, IfErr, IfSome, OnOk};
ghost use Rattle.std.specs.List.{list_any};
ghost use Rattle.read_steps.specs.Steps.{seen};
ghost use Rattle.vex_schedule.specs.{Statements.{is_just, is_setup, only}, Covering.{is_to_freq, covers_each, covers_by, noted, noted_if, found_in, IsOnlyAt, IsCovering, AreCoverings}};

use crate::fault::SchedFault;
use crate::statements::{is_some_text, only_setup};
use crate::values::sole;
use named_list::Named;
use std::alloc::{AllocError, Global};
use vex_reader::{Item, Statement, Value, VexFile};

/// Where among some statements one was found: nowhere, at one place, or at more than one.
#[derive(Clone, Copy)]
pub(crate) enum Found {
    Nowhere,
    Once(usize),
    Often,
}

/// The refs of a mode that cover each station, and for each key those that cover the station by it.
#[derive(Drop)]
pub(crate) struct Covering {
    pub each: Found,
    pub by_key: Named<Found>,
}

// What was found, with one more at a place.
fn noted(found: Found, i: usize) -> Found
    ensures { result ≡ noted found i }
{
    match found {
        Found::Nowhere => Found::Once(i),
        Found::Once(at) if at == i => Found::Once(at),
        _ => Found::Often,
    }
}

// What was found for a key.
fn found_in(found: &Named<Found>, key: &[u8]) -> Found
    ensures { result ≡ found_in found.now key.now }
{
    match found.get(key) {
        Some(found) => *found,
        None => Found::Nowhere,
    }
}

// Notes a place for the key that a value is, if it is one word.
fn note_value(
    alloc: Global,
    found: &mut Named<Found>,
    value: &Value,
    i: usize,
) -> Result<(), AllocError>
    ensures { OnOk result ((key : List ℕ) → found_in found.new key ≡ noted_if (is_just key value.now) (found_in found.old key) i) }
{
    if let Some(key) = sole(value.items()) {
        let before = found_in(found, key.bytes());
        found.put(alloc, key.bytes(), noted(before, i))?;
    }
    Ok(())
}

// Notes a place for the keys that some values are.
fn note_values(
    alloc: Global,
    found: &mut Named<Found>,
    values: &[Value],
    i: usize,
) -> Result<(), AllocError>
    ensures { OnOk result ((key : List ℕ) → found_in found.new key ≡ noted_if (list_any (is_just key) values.now) (found_in found.old key) i) }
{
    for value in values {
        note_value(alloc, found, value, i)?;
    }
    Ok(())
}

impl Covering {
    // Notes a statement, which stands at a place.
    fn note(&mut self, alloc: Global, statement: &Statement, i: usize) -> Result<(), AllocError>
        ensures each { OnOk result (self.new.each ≡ noted_if (covers_each statement.now) self.old.each i) }
        ensures by_key { OnOk result ((key : List ℕ) → found_in self.new.by_key key ≡ noted_if (covers_by key statement.now) (found_in self.old.by_key key) i) }
    {
        if !is_some_text(statement.target.as_ref(), b"$FREQ") {
            return Ok(());
        }
        let values = statement.values.items();
        if values.len() == 1 {
            self.each = noted(self.each, i);
        } else if !values.is_empty() {
            note_values(alloc, &mut self.by_key, &values[1..], i)?;
        }
        Ok(())
    }

    // The place of the one ref that covers a station, where it covers all or is the one that has its key.
    fn place(&self, key: &[u8], statements: &[Statement]) -> Option<usize>
        requires { IsCovering statements.now (length statements.now) self.now }
        ensures { IfSome result (IsOnlyAt (is_setup key.now) statements.now (length statements.now)) }
    {
        match (self.each, found_in(&self.by_key, key)) {
            (Found::Once(i), Found::Nowhere) => Some(i),
            (Found::Nowhere, Found::Once(i)) => Some(i),
            _ => None,
        }
    }

    /// The only statement of a mode that sets up a station. Where there is none or a second one, a walk over the
    /// mode finds the fault, which ends the schedule: so one walk is the most that a schedule takes.
    pub(crate) fn only_setup<'a>(
        &self,
        mode: &'a Item,
        key: &[u8],
    ) -> Result<&'a Statement, SchedFault>
        requires { IsCovering mode.now.statements (length mode.now.statements) self.now }
        ensures { seen (λ statement. statement.now) result ≡ only mode.now.at (filter (is_setup key.now) mode.now.statements) }
    {
        let statements = mode.statements.items();
        match self.place(key, statements) {
            Some(i) => Ok(&statements[i]),
            None => only_setup(statements, key, mode.at),
        }
    }
}

// What the refs of a mode cover.
fn covering_of(alloc: Global, mode: &Item) -> Result<Covering, AllocError>
    ensures { IfOk result (IsCovering mode.now.statements (length mode.now.statements)) }
{
    let mut covering = Covering {
        each: Found::Nowhere,
        by_key: Named::new(alloc),
    };
    for (i, statement) in mode.statements.items().iter().enumerate() {
        covering.note(alloc, statement, i)?;
    }
    Ok(covering)
}

/// What the refs of the defs of `$MODE` cover, in the block's order.
pub(crate) fn coverings_of(alloc: Global, file: &VexFile) -> Result<Vec<Covering>, AllocError>
    ensures { IfOk result (λ coverings. AreCoverings file.now coverings.items) }
{
    let mut coverings = Vec::new(alloc);
    let Some(block) = file.blocks.get(b"$MODE") else {
        return Ok(coverings);
    };
    for i in 0..block.defs.len() {
        let (_, mode) = block.defs.at(i);
        coverings.push(covering_of(alloc, mode)?)?;
    }
    Ok(coverings)
}
