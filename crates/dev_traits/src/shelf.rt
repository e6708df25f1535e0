// Files that are read by name and place.
ghost use Rattle.std.specs.Prelude.{◌≡◌, ◌≤◌, ◌<◌, ◌^◌, List, ℕ, Option, length, IfOk, IfSome};
ghost use Rattle.dev_traits.specs.{Fault.{Counts}, Told.{WhereTold}, Files.{size_of, ReadsAt}};

use crate::Failed;

/// A map from names to bytes, which no call changes.
pub trait Shelf {
    /// The bytes under each name, where the shelf tells them. A name is its text's bytes.
    ghost told: { Self → Option (List ℕ → Option (List ℕ)) };

    /// How often a call has failed.
    ghost faults: { Self → ℕ };

    /// The length of the file in bytes, below 2^63; `None` exactly where the name is not there.
    fn size(&mut self, name: &str) -> Result<Option<u64>, Failed>
        ensures same { told self.new ≡ told self.old }
        ensures bound { IfOk result (λ size. IfSome size (λ n. n < 2 ^ 63)) }
        ensures size { IfOk result
            (λ size. WhereTold (told self.old) (λ files. size ≡ size_of (files name.now))) }
        ensures counts { Counts (faults self.old) (faults self.new) result };

    /// Fills the front of `buf` with the file's bytes from byte `at` on, and answers how many: as
    /// many as there are and fit, and 0 for a name that is not there.
    fn read_at(&mut self, name: &str, at: u64, buf: &mut [u8]) -> Result<usize, Failed>
        ensures same { told self.new ≡ told self.old }
        ensures within { IfOk result (λ n. n ≤ length buf.old) }
        ensures read { IfOk result
            (λ n. WhereTold (told self.old)
            (λ files. ReadsAt (files name.now) at buf.old n buf.new)) }
        ensures counts { Counts (faults self.old) (faults self.new) result };
}
