// An open file that is read and written at a place, and the loops over its single calls.
ghost use Rattle.std.specs.Prelude.{◌≡◌, ◌≤◌, ◌<◌, ◌+◌, ◌^◌, List, ℕ, Bool, Option, Some, length, IfOk, IsOk, IsTrue};
ghost use Rattle.dev_traits.specs.{Files.{ReadsAt}, Told.{WhereTold}};
ghost use Rattle.real_devices.specs.Placed.{ReadsSome, ReadsOn};

use std::io;

/// An open file, by single calls of the system. Places and lengths count bytes from the file's begin.
pub trait PlacedFile {
    /// The file's bytes, where it tells them.
    ghost told: { Self → Option (List ℕ) };

    /// Whether no call fails.
    ghost never_fails: { Self → Bool };

    /// The file's length, below 2^63.
    fn size(&mut self) -> io::Result<u64>
        ensures same { told self.new ≡ told self.old }
        ensures steady { never_fails self.new ≡ never_fails self.old }
        ensures bound { IfOk result (λ n. n < 2 ^ 63) }
        ensures size { IfOk result (λ n. WhereTold (told self.old) (λ bytes. n ≡ length bytes)) }
        ensures answers { IsTrue (never_fails self.old) → IsOk result };

    /// Fills a front of `buf` with bytes of the file from byte `at` on, and answers how many: at least
    /// one, unless the file ends there or `buf` is empty.
    fn read_some(&mut self, at: u64, buf: &mut [u8]) -> io::Result<usize>
        ensures same { told self.new ≡ told self.old }
        ensures steady { never_fails self.new ≡ never_fails self.old }
        ensures within { IfOk result (λ n. n ≤ length buf.old) }
        ensures read { IfOk result
            (λ n. WhereTold (told self.old) (λ bytes. ReadsSome bytes at buf.old n buf.new)) }
        ensures answers { IsTrue (never_fails self.old) → IsOk result };
}

/// Fills the front of `buf` with the file's bytes from byte `at` on, as many as there are and fit, and
/// answers how many. A read that gives fewer is gone on with; one that fails is not the file's end.
pub fn read_full<F: PlacedFile>(file: &mut F, at: u64, buf: &mut [u8]) -> io::Result<usize>
    requires { at + length buf.old < 2 ^ 64 }
    ensures same { F.told file.new ≡ F.told file.old }
    ensures steady { F.never_fails file.new ≡ F.never_fails file.old }
    ensures within { IfOk result (λ n. n ≤ length buf.old) }
    ensures read { IfOk result
        (λ n. WhereTold (F.told file.old) (λ bytes. ReadsAt (Some bytes) at buf.old n buf.new)) }
    ensures answers { IsTrue (F.never_fails file.old) → IsOk result }
{
    let mut done = 0;
    while done < buf.len() {
        let n = read_on(file, at, done, buf)?;
        if n == 0 {
            return Ok(done);
        }
        done += n;
    }
    Ok(done)
}

// Reads on behind the first `done` bytes of the buffer, which came from byte `at` of the file on.
fn read_on<F: PlacedFile>(file: &mut F, at: u64, done: usize, buf: &mut [u8]) -> io::Result<usize>
    requires inside { done ≤ length buf.old }
    requires room { at + length buf.old < 2 ^ 64 }
    ensures same { F.told file.new ≡ F.told file.old }
    ensures steady { F.never_fails file.new ≡ F.never_fails file.old }
    ensures within { IfOk result (λ n. done + n ≤ length buf.old) }
    ensures read { IfOk result
        (λ n. WhereTold (F.told file.old) (λ bytes. ReadsOn bytes at done buf.old n buf.new)) }
    ensures answers { IsTrue (F.never_fails file.old) → IsOk result }
{
    file.read_some(at + done as u64, &mut buf[done..])
}
