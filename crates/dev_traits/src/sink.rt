// A place that bytes are appended to.
ghost use Rattle.std.specs.Prelude.{◌≡◌, ◌≤◌, ◌<◌, List, [], ℕ, Option, length, take, IfOk, IsOk, OnOk, OnErr};
ghost use Rattle.dev_traits.specs.{Fault.{Counts}, Told.{more, PrefixMore}};

use crate::Failed;

/// A list of bytes that grows at its end.
pub trait Sink {
    /// The bytes appended so far, where the sink tells them.
    ghost told: { Self → Option (List ℕ) };

    /// How often a call has failed.
    ghost faults: { Self → ℕ };

    /// Appends a first part of `bytes` and answers its length, at least 1 unless `bytes` is empty.
    /// It appends nothing where the call fails.
    fn write(&mut self, bytes: &[u8]) -> Result<usize, Failed>
        ensures within { IfOk result (λ n. n ≤ length bytes.now) }
        ensures some { IfOk result (λ n. 0 < length bytes.now → 0 < n) }
        ensures appended { IfOk result (λ n. told self.new ≡ more (told self.old) (take n bytes.now)) }
        ensures nothing { OnErr result (told self.new ≡ told self.old) }
        ensures counts { Counts (faults self.old) (faults self.new) result };
}

/// Appends all of `bytes`, in as many writes as the sink takes: none where there are no bytes. Where a
/// write fails, what the earlier ones appended stays.
pub fn write_all<S: Sink>(out: &mut S, bytes: &[u8]) -> Result<(), Failed>
    ensures empty { bytes.now ≡ [] → IsOk result }
    ensures untouched { bytes.now ≡ [] → out.new ≡ out.old }

    ensures ok { OnOk result (S.told out.new ≡ more (S.told out.old) bytes.now) }
    ensures prefix { OnErr result (PrefixMore (S.told out.old) bytes.now (S.told out.new)) }
    ensures counts { Counts (S.faults out.old) (S.faults out.new) result }
{
    let mut at = 0;
    while at < bytes.len() {
        at += out.write(&bytes[at..])?;
    }
    Ok(())
}
