//! Things by their names.
ghost use Rattle.std.specs.Prelude.{◌≡◌, ◌≢◌, ◌<◌, [], None, Some, IfSome, IfNone, IfOk, OnOk, OnErr, option_copied, option_map, length, slice_get, is_some, AllPairs};
ghost use Rattle.named_list.specs.Named.{named, names, put};

use indexmap::IndexMap;
use std::alloc::{AllocError, Global};
use std::marker::Model;

/// Things by their names, in the order in which the names came first. No name is there twice.
#[derive(Debug)]
pub struct Named<T> {
    things: IndexMap<Vec<u8>, T>,
}

// Written out, so that a function that drops one calls this, and does not drop the map part by part.
impl<T: Drop> Drop for Named<T> {
    fn drop(self) {
        let Named { things: _ } = self;
    }
}

impl<T> Model for Named<T> {
    ghost use Rattle.std.specs.Prelude.{List, ℕ, map};

    ghost Value = { List (List ℕ × T) };

    ghost view = { λ named. map (λ entry. (entry.0.items, entry.1)) named.things.entries };
}

impl<T> Named<T> {
    /// No things.
    pub fn new(alloc: Global) -> Self
        ensures { result ≡ [] }
    {
        Named {
            things: IndexMap::new(alloc),
        }
    }

    /// The thing of this name.
    pub fn get(&self, name: &[u8]) -> Option<&T>
        ensures { option_copied result ≡ named self.now name.now }
    {
        self.things.get(name)
    }

    /// Whether there is a thing of this name.
    pub fn has(&self, name: &[u8]) -> bool
        ensures { result ≡ is_some (named self.now name.now) }
    {
        self.things.contains_key(name)
    }

    /// The place of the thing of this name, counted from 0.
    pub fn place(&self, name: &[u8]) -> Option<usize>
        ensures within { IfSome result (λ i. i < length self.now) }
        ensures there { IfSome result (λ i. option_map (λ x. x.1) (slice_get self.now i) ≡ named self.now name.now) }
        ensures none { IfNone result (named self.now name.now ≡ None) }
    {
        self.things.get_index_of(name)
    }

    /// How many things there are. No two of them have one name.
    pub fn len(&self) -> usize
        ensures len { result ≡ length self.now }
        ensures once { AllPairs (λ x y. x ≢ y) (names self.now) }
    {
        self.things.len()
    }

    /// The name and the thing at a place, which stands under that name.
    pub fn at(&self, i: usize) -> (&[u8], &T)
        requires { i < length self.now }
        ensures entry { slice_get self.now i ≡ Some (result.0.now, result.1.now) }
        ensures under_its_name { named self.now result.0.now ≡ Some result.1.now }
    {
        let (name, thing) = self.things.get_index(i).unwrap();
        (name, thing)
    }
}

impl<T: Drop> Named<T> {
    /// Puts a thing under a name, and gives what stood there. A new name goes last.
    pub fn put(&mut self, alloc: Global, name: &[u8], thing: T) -> Result<Option<T>, AllocError>
        ensures put { OnOk result (self.new ≡ put self.old name.now thing) }
        ensures before { IfOk result (λ before. before ≡ named self.old name.now) }
        ensures unchanged { OnErr result (self.new ≡ self.old) }
    {
        let name = name.to_vec(alloc)?;
        Ok(self.things.insert(name, thing)?)
    }
}
