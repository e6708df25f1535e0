//! Stretches, read.
ghost use Rattle.std.specs.Prelude.{◌≡◌, ◌≤◌, ◌<◌, ◌+◌, ◌-◌, ◌^◌, length, drop, replicate, IfOk, OnOk};
ghost use Rattle.std.specs.Str.{IsUtf8};
ghost use Rattle.dev_traits.specs.{Fault.{Counts}, Files.{bytes_of}, Told.{WhereTold}};
ghost use Rattle.shelf_stretch.specs.Stretch.{stretch, count_from};

use crate::front::read_front;
use dev_traits::{Failed, Shelf};

/// Fills `buf` with the bytes of the file under a name from byte `at` on, and answers how many the shelf gave; those
/// behind them are zero. A name that is no UTF-8 has no bytes.
pub fn read_stretch<F: Shelf>(
    shelf: &mut F,
    name: &[u8],
    at: u64,
    buf: &mut [u8],
) -> Result<usize, Failed>
    requires fits { at + length buf.old < 2 ^ 64 }
    ensures same { F.told shelf.new ≡ F.told shelf.old }
    ensures within { IfOk result (λ n. n ≤ length buf.old) }
    ensures zeros { IfOk result (λ n. drop n buf.new ≡ replicate (length buf.old - n) 0) }
    ensures no_text { IfOk result (λ n. (IsUtf8 name.now → ⊥) → n ≡ 0) }
    ensures count { IfOk result (λ n. IsUtf8 name.now → WhereTold (F.told shelf.old)
        (λ files. n ≡ count_from at (length buf.old) (bytes_of (files name.now)))) }
    ensures stretch { OnOk result (IsUtf8 name.now → WhereTold (F.told shelf.old)
        (λ files. buf.new ≡ stretch at (length buf.old) (bytes_of (files name.now)))) }
    ensures counts { Counts (F.faults shelf.old) (F.faults shelf.new) result }
{
    let Ok(text) = str::from_utf8(name) else {
        buf.fill(0);
        return Ok(0);
    };
    let n = read_front(shelf, text, at, buf)?;
    buf[n..].fill(0);
    Ok(n)
}
