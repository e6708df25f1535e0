// One file that is read and written by place, and what a crash may leave of it.
ghost use Rattle.std.specs.Prelude.{◌≡◌, ◌+◌, ◌<◌, ◌≤◌, ◌^◌, List, ℕ, Option, Some, length, take, option_map, is_some, true, IfOk, OnOk};
ghost use Rattle.dev_traits.specs.{Fault.{Counts}, Told.{WhereTold}, Files.{ReadsAt}, Images.{put_at, Same, Torn, Shorn}, Moments.{Goes, IsDurable, GoesOn}};

use crate::Failed;

/// The bytes of one file. Places and lengths count bytes from the file's begin.
///
/// A disk that tells its content also tells what a crash may leave, at each moment of its life: after
/// a `sync` that succeeds just what a read gives, and before that any bytes where one was written or
/// where the file was cut since.
pub trait Disk {
    /// The file's bytes as a read gives them, where the disk tells them.
    ghost seen: { Self → Option (List ℕ) };

    /// The number of the moment that it is now. Several may lie within one call.
    ghost moment: { Self → ℕ };

    /// The images that a crash at the moment of a number may leave. A disk that does not tell its
    /// content has none.
    ghost may_leave: { Self → ℕ → List ℕ → Type 0 };

    /// How often a call has failed.
    ghost faults: { Self → ℕ };

    /// What calls that read leave as it is: before, after.
    ghost stays: { Self → Self → Type 0 };

    /// The file's length in bytes, below 2^63.
    fn len(&mut self) -> Result<u64, Failed>
        ensures same { seen self.new ≡ seen self.old }
        ensures bound { IfOk result (λ n. n < 2 ^ 63) }
        ensures len { IfOk result
            (λ n. WhereTold (seen self.old) (λ bytes. n ≡ length bytes)) }
        ensures stays { stays self.old self.new }
        ensures goes { Goes moment may_leave Same self.old self.new }
        ensures counts { Counts (faults self.old) (faults self.new) result };

    /// Fills the front of `buf` with the file's bytes from byte `at` on, and answers how many: as
    /// many as there are and fit.
    fn read_at(&mut self, at: u64, buf: &mut [u8]) -> Result<usize, Failed>
        ensures same { seen self.new ≡ seen self.old }
        ensures within { IfOk result (λ n. n ≤ length buf.old) }
        ensures read { IfOk result
            (λ n. WhereTold (seen self.old)
            (λ bytes. ReadsAt (Some bytes) at buf.old n buf.new)) }
        ensures stays { stays self.old self.new }
        ensures goes { Goes moment may_leave Same self.old self.new }
        ensures counts { Counts (faults self.old) (faults self.new) result };

    /// Writes all of `bytes` from byte `at` on. Where the file ends before `at`, zeros come between.
    /// Where the call fails, some of it may be written.
    fn write_at(&mut self, at: u64, bytes: &[u8]) -> Result<(), Failed>
        requires { at + length bytes.now < 2 ^ 63 }
        ensures written { OnOk result (seen self.new ≡ option_map (put_at at bytes.now) (seen self.old)) }
        ensures tells { is_some (seen self.new) ≡ is_some (seen self.old) }
        ensures goes { Goes moment may_leave (Torn at (at + length bytes.now)) self.old self.new }
        ensures counts { Counts (faults self.old) (faults self.new) result };

    /// Shortens the file to `len` bytes; one that is no longer stays as it is. Where the call fails,
    /// it may have shortened the file or not.
    fn cut(&mut self, len: u64) -> Result<(), Failed>
        ensures cut { OnOk result (seen self.new ≡ option_map (take len) (seen self.old)) }
        ensures tells { is_some (seen self.new) ≡ is_some (seen self.old) }
        ensures goes { Goes moment may_leave (Shorn len) self.old self.new }
        ensures counts { Counts (faults self.old) (faults self.new) result };

    /// Puts all that was written and cut in its place: from then on a crash leaves what a read
    /// gives.
    fn sync(&mut self) -> Result<(), Failed>
        ensures same { seen self.new ≡ seen self.old }
        ensures durable { OnOk result (IsDurable (seen self.new) (may_leave self.new (moment self.new))) }
        ensures goes { Goes moment may_leave Same self.old self.new }
        ensures counts { Counts (faults self.old) (faults self.new) result };

    /// What is left as it is by no call, and by one call and then others.
    ghost stays_on: { GoesOn stays };

    /// What a read gives is one of the images of now.
    ghost seen_is_image: { (disk : Self) → WhereTold (seen disk) (may_leave disk (moment disk)) };

    /// A disk with an image tells its content.
    ghost images_are_told: { (disk : Self) (t : ℕ) (image : List ℕ) → may_leave disk t image → is_some (seen disk) ≡ true };

    /// Each image is shorter than 2^63 bytes.
    ghost images_are_short: { (disk : Self) (t : ℕ) (image : List ℕ) → t ≤ moment disk → may_leave disk t image → length image < 2 ^ 63 };
}
