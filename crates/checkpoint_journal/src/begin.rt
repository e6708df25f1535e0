//! A blank file is made the journal of a job. The head gate stays closed until the identity and the first gate stand
//! synced behind it.
ghost use Rattle.std.specs.Prelude.{◌≡◌, ℕ, List, [], ◌∷◌, ◌++◌, ◌+◌, ◌<◌, ◌^◌, length, OnOk, true, is_some, option_map};
ghost use Rattle.dev_traits.specs.{Fault.{Counts}, Told.{WhereTold}, Images.{put_at}, Moments.{Runs, IsDurable}};
ghost use Rattle.piece_plan.specs.Epochs.{JobSizes, IsJob};
ghost use Rattle.checkpoint_journal.specs.Runs.{Changes, KeepsFront, KeepsBlank, IsClosedHead, KeepsEpochs};
ghost use Rattle.journal_image.specs.Image.{is_blank, IsIdentity};

use crate::writer::{cut_synced, write_synced};
use dev_traits::{Disk, Failed};

// Makes a blank file the journal of a job, with no epoch.
pub(crate) fn begin<D: Disk>(disk: &mut D, id: &[u8]) -> Result<(), Failed>
    requires named { IsIdentity id.now }
    requires short { length id.now < 2 ^ 62 }
    requires blank { WhereTold (D.seen disk.old) (λ image. is_blank image ≡ true) }
    requires durable { IsDurable (D.seen disk.old) (D.may_leave disk.old (D.moment disk.old)) }
    ensures begun { OnOk result (WhereTold (D.seen disk.new) (λ image. image ≡ 1 ∷ (id.now ++ 0 ∷ []))) }
    ensures durable { OnOk result (IsDurable (D.seen disk.new) (D.may_leave disk.new (D.moment disk.new))) }
    ensures changes { (job : JobSizes) → IsJob job
        → Changes D.seen D.moment D.may_leave (KeepsEpochs id.now job) disk.old disk.new }
    ensures counts { Counts (D.faults disk.old) (D.faults disk.new) result }
{
    close_head(disk)?;
    write_identity(disk, id)?;
    write_synced(disk, 0, &[1])
}

// Leaves of a blank file a closed head gate alone.
fn close_head<D: Disk>(disk: &mut D) -> Result<(), Failed>
    requires blank { WhereTold (D.seen disk.old) (λ image. is_blank image ≡ true) }
    requires durable { IsDurable (D.seen disk.old) (D.may_leave disk.old (D.moment disk.old)) }
    ensures closed { OnOk result (WhereTold (D.seen disk.new) IsClosedHead) }
    ensures durable { OnOk result (IsDurable (D.seen disk.new) (D.may_leave disk.new (D.moment disk.new))) }
    ensures tells { is_some (D.seen disk.new) ≡ is_some (D.seen disk.old) }
    ensures runs { Runs D.moment D.may_leave KeepsBlank disk.old disk.new }
    ensures counts { Counts (D.faults disk.old) (D.faults disk.new) result }
{
    let len = disk.len()?;
    if len <= 1 {
        write_synced(disk, 0, &[0])
    } else {
        cut_synced(disk, 1)
    }
}

// Writes the identity and the first gate, closed, behind the head gate.
fn write_identity<D: Disk>(disk: &mut D, id: &[u8]) -> Result<(), Failed>
    requires { length id.now < 2 ^ 62 }
    ensures written { OnOk result
        (D.seen disk.new ≡ option_map (put_at (1 + length id.now) (0 ∷ [])) (option_map (put_at 1 id.now) (D.seen disk.old))) }
    ensures durable { OnOk result (IsDurable (D.seen disk.new) (D.may_leave disk.new (D.moment disk.new))) }
    ensures tells { is_some (D.seen disk.new) ≡ is_some (D.seen disk.old) }
    ensures runs { Runs D.moment D.may_leave (KeepsFront 1) disk.old disk.new }
    ensures counts { Counts (D.faults disk.old) (D.faults disk.new) result }
{
    disk.write_at(1, id)?;
    write_synced(disk, 1 + id.len() as u64, &[0])
}
