//! The values of a range of samples.
ghost use Rattle.std.specs.Prelude.{◌≡◌, ◌<◌, ◌≤◌, ◌+◌, ◌^◌, ℕ, ℤ, pos, ◌+ℤ◌, ◌-ℤ◌, ◌≤ℤ◌, ◌<ℤ◌, length, map, IfOk};
ghost use Rattle.std.specs.Int.{bit_at};
ghost use Rattle.packed_values.specs.{From.{value_from}, Packed.{values_of}};
ghost use Rattle.value_codes.specs.Codes.{value_of};
ghost use Rattle.bit_planes.specs.{Planes.{plane_value, size_of}, Shown.{plane_bit}};

use crate::asked::ask;
use crate::held::Held;
use crate::shown::word_at;
use corr_model::Values;
use packed_values::{Packed, Words};
use std::alloc::{AllocError, Global};
use std::marker::Model;

/// The values of a station's channel at the samples from one up to, not including, another.
#[derive(Drop)]
pub struct Planes {
    from: i64,
    to: i64,
    held: Held,
}

impl Model for Planes {
    ghost use Rattle.bit_planes.specs.{Planes.{PlanesFields, ArePlanes}, Held.{AreHeld, values_in}};

    ghost Value = { PlanesFields };

    ghost view = { λ p. record { from = p.from; to = p.to; values = values_in p.held } };

    ghost invariant = { λ p. ArePlanes (record { from = p.from; to = p.to; values = values_in p.held }) × AreHeld p.held };
}

impl Planes {
    /// Asks for the values of the samples from `from` up to, not including, `to`, once each. `station` and `chan` are numbers
    /// of the plan.
    pub fn build<V: Values>(
        alloc: Global,
        v: &V,
        station: u32,
        chan: u32,
        from: i64,
        to: i64,
    ) -> Result<Planes, AllocError>
        requires start { pos 0 ≤ℤ from }
        requires end { to ≤ℤ pos (2 ^ 40) }
        requires order { from ≤ℤ to }
        ensures range { IfOk result (λ p. (p.from ≡ from) × (p.to ≡ to)) }
        ensures values { IfOk result (λ p. (n : ℤ) → from ≤ℤ n → n <ℤ to → plane_value p n ≡ V.samples v.now station chan n) }
    {
        let held = ask(
            alloc,
            v,
            station,
            chan,
            samples_between(0, from),
            samples_between(from, to),
        )?;
        Ok(Planes { from, to, held })
    }

    /// The values of codes, one a sample, from sample `from` on. The codes stay where they are in memory, and none is taken.
    pub fn of_codes(from: i64, codes: Vec<u8>) -> Planes
        requires start { pos 0 ≤ℤ from }
        requires end { (from +ℤ pos (length codes.items)) ≤ℤ pos (2 ^ 40) }
        ensures range { (result.from ≡ from) × (result.to ≡ from +ℤ pos (length codes.items)) }
        ensures values { (n : ℤ) → plane_value result n ≡ value_from (map value_of codes.items) (n -ℤ from) }
    {
        let to = from + codes.len() as i64;
        Planes {
            from,
            to,
            held: Held::Codes(codes),
        }
    }

    /// Gives the room of the codes to spare lists; where there is no memory for its place among them, it goes.
    pub fn leave(self, spare: &mut Vec<Vec<u8>>) {
        if let Held::Codes(codes) = self.held {
            let _ = spare.push(codes);
        }
    }

    /// The first sample.
    pub fn from(&self) -> i64
        ensures { result ≡ self.now.from }
    {
        self.from
    }

    /// The sample after the last one.
    pub fn to(&self) -> i64
        ensures { result ≡ self.now.to }
    {
        self.to
    }

    /// The row of the values, from the first sample on.
    pub fn packed(&self) -> Packed<'_>
        ensures values { (n : ℤ) → plane_value self.now n ≡ value_from (values_of result) (n -ℤ self.now.from) }
        ensures held { length (values_of result) ≤ size_of self.now }
        ensures start { pos 0 ≤ℤ self.now.from }
        ensures order { self.now.from ≤ℤ self.now.to }
        ensures end { self.now.to ≤ℤ pos (2 ^ 40) }
    {
        match &self.held {
            Held::Codes(codes) => Packed::Codes(codes),
            Held::Words(words) => Packed::Words(Words { words }),
        }
    }

    /// The 64 bits of a plane from that of sample `from + bit` on, zeros past the end. Plane 0 says where there is a value;
    /// plane 1 + 8c + 2t + s where part t (0 to 3 for u, v, w, y) of component c (0 the real one, 1 the imaginary one) has the sign
    /// s (0 plus, 1 minus), the component's magnitude being u + 2v + 4w + 8y.
    pub fn word_at(&self, plane: u8, bit: u64) -> u64
        requires plane { plane < 17 }
        ensures { (k : ℕ) → k < 64 → bit_at result k ≡ plane_bit plane (plane_value self.now (self.now.from +ℤ pos (bit + k))) }
    {
        if bit >= samples_between(self.from, self.to) as u64 {
            return 0;
        }
        word_at(&self.held, plane, bit as usize)
    }
}

// How many samples there are from sample `first` up to, not including, sample `n`.
#[inline(always)]
fn samples_between(first: i64, n: i64) -> usize
    requires order { first ≤ℤ n }
    requires low { pos 0 ≤ℤ first }
    requires high { n ≤ℤ pos (2 ^ 40) }
    ensures { first +ℤ pos result ≡ n }
{
    (n - first) as usize
}
