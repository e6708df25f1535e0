//! Pairs of names.
ghost use Rattle.std.specs.Prelude.{◌≡◌, ◌≢◌, ◌<◌, ◌++◌, ◌∷◌, [], IfOk, OnOk, OnErr, not, length, slice_get, Some, AllPairs, if◌then◌else◌};
ghost use Rattle.job_text.specs.Faults.{is_pair_among};

use indexmap::IndexSet;
use std::alloc::{AllocError, Global};
use std::marker::Model;

/// Pairs of names, in the order in which they came first. No pair is there twice.
#[derive(Debug, Drop)]
pub struct Pairs {
    pairs: IndexSet<(Vec<u8>, Vec<u8>)>,
}

impl Model for Pairs {
    ghost use Rattle.std.specs.Prelude.{List, ℕ, map};

    ghost Value = { List (List ℕ × List ℕ) };

    ghost view = { λ pairs. map (λ pair. (pair.0.items, pair.1.items)) pairs.pairs.keys };
}

impl Pairs {
    /// No pairs.
    pub(crate) fn new(alloc: Global) -> Self
        ensures { result ≡ [] }
    {
        Pairs {
            pairs: IndexSet::new(alloc),
        }
    }

    /// How many pairs there are. No two of them are one.
    pub fn len(&self) -> usize
        ensures len { result ≡ length self.now }
        ensures once { AllPairs (λ x y. x ≢ y) self.now }
    {
        self.pairs.len()
    }

    /// The names of a pair, by its place.
    pub fn at(&self, i: usize) -> (&[u8], &[u8])
        requires { i < length self.now }
        ensures { slice_get self.now i ≡ Some (result.0.now, result.1.now) }
    {
        let pair = self.pairs.get_index(i).unwrap();
        (&pair.0, &pair.1)
    }

    /// Adds a pair; `false`, and nothing added, where it is there already.
    pub(crate) fn add(&mut self, alloc: Global, x: &[u8], y: &[u8]) -> Result<bool, AllocError>
        ensures answer { IfOk result (λ added. added ≡ not (is_pair_among x.now y.now self.old)) }
        ensures after { IfOk result (λ added. self.new ≡ (if added then self.old ++ (x.now, y.now) ∷ [] else self.old)) }
        ensures unchanged { OnErr result (self.new ≡ self.old) }
    {
        let x = x.to_vec(alloc)?;
        let y = y.to_vec(alloc)?;
        Ok(self.pairs.insert((x, y))?)
    }
}
