ghost use Rattle.std.specs.Prelude.{◌≡◌, ◌≢◌, ◌++◌, ◌∷◌, [], ◌↔◌, ℤ, IfOk, OnErr, IsTrue, if◌then◌else◌};
ghost use Rattle.std.specs.List.{All};
ghost use Rattle.entry_list.specs.{Latest.{DifferInSecond, IsInForce, IsNext, in_force}, Index.{IsGreatestUpTo, IsLeastAfter}};

use std::alloc::{AllocError, Global};
use std::collections::BTreeMap;
use std::marker::Model;
use std::ops::Bound;

/// What is in force from a second on.
pub trait HasSecond: Copy {
    /// That second.
    ghost second_of: { Self → ℤ };

    /// The second, from 1970-01-01 00:00 on.
    fn second(&self) -> i64
        ensures { result ≡ second_of self.now };
}

/// Entries that differ in their seconds, in the order in which they were added. Each is found by its
/// second through an ordered map.
#[derive(Drop)]
pub struct EntryList<E: HasSecond> {
    entries: Vec<E>,
    index: BTreeMap<i64, E>,
}

impl<E: HasSecond> Model for EntryList<E> {
    ghost use Rattle.std.specs.Prelude.{List};
    ghost use Rattle.entry_list.specs.{Latest.{DifferInSecond}, Index.{IsIndex}};

    ghost Value = { List E };

    ghost view = { λ list. list.entries.items };

    ghost invariant = { λ list. DifferInSecond E.second_of list.entries.items
        × IsIndex E.second_of list.entries.items list.index };
}

// The entry under the greatest second that is not after this one.
fn greatest_up_to<E: HasSecond>(index: &BTreeMap<i64, E>, second: i64) -> Option<E>
    ensures { IsGreatestUpTo index.now second result }
{
    match index.range(..=second).next_back() {
        None => None,
        Some((_, e)) => Some(*e),
    }
}

// The least second after this one.
fn least_after<E: HasSecond>(index: &BTreeMap<i64, E>, second: i64) -> Option<i64>
    ensures { IsLeastAfter index.now second result }
{
    match index
        .range((Bound::Excluded(second), Bound::Unbounded))
        .next()
    {
        None => None,
        Some((next, _)) => Some(*next),
    }
}

impl<E: HasSecond> EntryList<E> {
    /// A list without entries.
    pub fn new(alloc: Global) -> Self
        ensures { result ≡ [] }
    {
        EntryList {
            entries: Vec::new(alloc),
            index: BTreeMap::new(alloc),
        }
    }

    /// Adds an entry; `false`, and nothing added, where one of its second is there already.
    pub fn add(&mut self, e: E) -> Result<bool, AllocError>
        ensures answer { IfOk result
            (λ added. IsTrue added ↔ All (λ x. E.second_of x ≢ E.second_of e) self.old) }
        ensures after { IfOk result
            (λ added. self.new ≡ (if added then self.old ++ e ∷ [] else self.old)) }
        ensures unchanged { OnErr result (self.new ≡ self.old) }
        ensures differ { DifferInSecond E.second_of self.new }
    {
        if self.index.contains_key(&e.second()) {
            return Ok(false);
        }
        self.entries.push(e)?;
        if self.index.insert(e.second(), e).is_err() {
            self.entries.pop();
            return Err(AllocError);
        }
        Ok(true)
    }

    /// The same entries in a list of their own.
    pub fn copy(&self, alloc: Global) -> Result<Self, AllocError>
        ensures { IfOk result (λ list. list ≡ self.now) }
    {
        let mut list = EntryList::new(alloc);
        for e in &self.entries {
            list.add(*e)?;
        }
        Ok(list)
    }

    /// Whether the list has no entries.
    pub fn is_empty(&self) -> bool
        ensures { IsTrue result ↔ (self.now ≡ []) }
    {
        self.entries.is_empty()
    }

    /// The entries, in the order in which they were added.
    pub fn entries(&self) -> &[E]
        ensures { result.now ≡ self.now }
    {
        &self.entries
    }

    /// The entry in force at the second, from 1970-01-01 00:00 on: the latest that has begun, `None`
    /// before the first.
    pub fn entry_for(&self, second: i64) -> Option<E>
        ensures latest { IsInForce E.second_of self.now second result }
        ensures same { result ≡ in_force E.second_of self.now second }
    {
        greatest_up_to(&self.index, second)
    }

    /// The second at which the entry after the one in force begins: the least second of an entry that is
    /// later than this one, `None` where there is none.
    pub fn next_second(&self, second: i64) -> Option<i64>
        ensures { IsNext E.second_of self.now second result }
    {
        least_after(&self.index, second)
    }
}
