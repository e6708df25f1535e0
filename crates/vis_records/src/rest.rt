//! What is left of a text that is read from the front.
#![tactic(auto, unfolding(crate::specs::Parts::chain, crate::specs::Parts::checked, crate::specs::Parts::piece, crate::specs::Parts::field))]

ghost use Rattle.std.specs.Prelude.{◌≡◌, ◌≤◌, length, IfOk, IfErr};
ghost use Rattle.std.specs.Int.{w64, cast_signed};
ghost use Rattle.vis_records.specs.{Parts.{piece, number_of, field, Took, StopsBy}, Reading.{word, signed_word}};

use crate::fault::{Stop, VisKind};
use byteorder::{ByteOrder, LittleEndian};
use std::marker::Model;

// The bytes of a text that are left.
#[derive(Debug, Drop)]
pub(crate) struct Rest<'a> {
    bytes: &'a [u8],
}

impl<'a> Model for Rest<'a> {
    ghost use Rattle.std.specs.Prelude.{List, ℕ};

    ghost Value = { List ℕ };

    ghost view = { λ rest. rest.bytes.now };
}

impl<'a> Rest<'a> {
    // All of a text.
    pub fn of(bytes: &'a [u8]) -> Self
        ensures { result ≡ bytes.now }
    {
        Rest { bytes }
    }

    // How many bytes are left.
    pub fn len(&self) -> usize
        ensures { result ≡ length self.now }
    {
        self.bytes.len()
    }

    // The next n bytes.
    pub fn piece(&mut self, n: usize) -> Result<&'a [u8], Stop>
        ensures took { IfOk result (λ bytes. piece n self.old ≡ Took bytes.now self.new) }
        ensures size { IfOk result (λ bytes. length bytes.now ≡ n) }
        ensures stops { IfErr result (StopsBy (piece n self.old)) }
    {
        if n > self.bytes.len() {
            return Err(Stop {
                kind: VisKind::Short,
                left: 0,
            });
        }
        let bytes = &self.bytes[..n];
        self.bytes = &self.bytes[n..];
        Ok(bytes)
    }

    // The next number of so many bytes, which is to be in a range.
    pub fn field(&mut self, size: usize, low: u64, high: u64, kind: VisKind) -> Result<u64, Stop>
        requires some { 1 ≤ size }
        requires few { size ≤ 8 }
        ensures took { IfOk result (λ n. field size low high kind self.old ≡ Took n self.new) }
        ensures low { IfOk result (λ n. low ≤ n) }
        ensures high { IfOk result (λ n. n ≤ high) }
        ensures stops { IfErr result (StopsBy (field size low high kind self.old)) }
    {
        let left = self.len();
        let bytes = self.piece(size)?;
        let n = number(bytes, size);
        if low <= n && n <= high {
            Ok(n)
        } else {
            Err(Stop { kind, left })
        }
    }

    // The next number of 64 bits.
    pub fn word(&mut self) -> Result<u64, Stop>
        ensures took { IfOk result (λ n. word self.old ≡ Took n self.new) }
        ensures stops { IfErr result (StopsBy (word self.old)) }
    {
        let bytes = self.piece(8)?;
        Ok(number(bytes, 8))
    }

    // The next number of 64 bits in two's complement.
    pub fn signed_word(&mut self) -> Result<i64, Stop>
        ensures took { IfOk result (λ z. signed_word self.old ≡ Took z self.new) }
        ensures stops { IfErr result (StopsBy (signed_word self.old)) }
    {
        let bytes = self.piece(8)?;
        Ok(signed_number(bytes))
    }
}

// The number in eight bytes in two's complement, the lowest first.
fn signed_number(bytes: &[u8]) -> i64
    requires { 8 ≤ length bytes.now }
    ensures { result ≡ cast_signed w64 (number_of 8 bytes.now) }
{
    LittleEndian::read_i64(bytes)
}

// The number in some bytes, the lowest first.
fn number(bytes: &[u8], size: usize) -> u64
    requires some { 1 ≤ size }
    requires few { size ≤ 8 }
    requires enough { size ≤ length bytes.now }
    ensures { result ≡ number_of size bytes.now }
{
    LittleEndian::read_uint(bytes, size)
}
