//! The front of a buffer, read.
ghost use Rattle.std.specs.Prelude.{◌≡◌, ◌≤◌, ◌<◌, ◌+◌, ◌^◌, length, drop, IfOk};
ghost use Rattle.dev_traits.specs.{Fault.{Counts}, Files.{bytes_of}, Told.{WhereTold}};
ghost use Rattle.shelf_stretch.specs.Fronts.{ReadsOn, ReadsFront};

use dev_traits::{Failed, Shelf};

// Reads a file's bytes from byte `at + done` on into `buf` from place `done` on, where it has those from byte `at`
// on before that place.
fn read_on<F: Shelf>(
    shelf: &mut F,
    name: &str,
    at: u64,
    done: usize,
    buf: &mut [u8],
) -> Result<usize, Failed>
    requires inside { done ≤ length buf.old }
    requires fits { at + length buf.old < 2 ^ 64 }
    ensures same { F.told shelf.new ≡ F.told shelf.old }
    ensures within { IfOk result (λ n. done + n ≤ length buf.old) }
    ensures read { IfOk result (λ n. WhereTold (F.told shelf.old)
        (λ files. ReadsOn (drop at (bytes_of (files name.now))) done buf.old n buf.new)) }
    ensures counts { Counts (F.faults shelf.old) (F.faults shelf.new) result }
{
    shelf.read_at(name, at + done as u64, &mut buf[done..])
}

/// Reads a file's bytes from byte `at` on into the front of `buf`, and answers how many: less than fit only
/// where the shelf gives no more.
pub(crate) fn read_front<F: Shelf>(
    shelf: &mut F,
    name: &str,
    at: u64,
    buf: &mut [u8],
) -> Result<usize, Failed>
    requires fits { at + length buf.old < 2 ^ 64 }
    ensures same { F.told shelf.new ≡ F.told shelf.old }
    ensures within { IfOk result (λ n. n ≤ length buf.old) }
    ensures read { IfOk result (λ n. WhereTold (F.told shelf.old)
        (λ files. ReadsFront (drop at (bytes_of (files name.now))) n buf.new)) }
    ensures counts { Counts (F.faults shelf.old) (F.faults shelf.new) result }
{
    let mut done = 0;
    while done < buf.len() {
        let n = read_on(shelf, name, at, done, buf)?;
        if n == 0 {
            return Ok(done);
        }
        done += n;
    }
    Ok(done)
}
