//! Where the cells of records come from.
ghost use Rattle.std.specs.Prelude.{◌≡◌, ◌<◌, Option, length, OnOk, IfErr};
ghost use Rattle.dev_traits.specs.Told.{WhereTold};
ghost use Rattle.corr_model.specs.Records.{Head};
ghost use Rattle.vis_writer.specs.{Cells.{CellsOf, IsFull, integrations_at, cells_at}, Writes.{Composes}};

use corr_model::Cell;

/// The cells of a record file's records, one integration at a time.
///
/// A source states what a call without a fault does to it and what each of its faults means, so that a fault of many
/// calls has the cause that the last of them had.
pub trait CellSource {
    /// Why the cells of an integration are not had.
    type Fault;

    /// The head whose records have these cells.
    ghost head: { Self → Head };

    /// The cells of each integration, where the source tells them.
    ghost cells: { Self → Option CellsOf };

    /// What calls without a fault do: before, after.
    ghost steady: { Self → Self → Type 0 };

    /// What a fault means: before, after, the fault.
    ghost fails: { Self → Self → Self.Fault → Type 0 };

    /// Fills `buffer` with the cells of integration `m` of the scan with this number, by product, then by baseline, then
    /// by rising lag. Integrations may be asked for in any order.
    fn fill(&mut self, scan: u32, m: u64, buffer: &mut [Cell]) -> Result<(), Self::Fault>
        requires inside { m < integrations_at (head self.old) scan }
        requires room { length buffer.old ≡ cells_at (head self.old) scan }
        ensures filled { OnOk result (WhereTold (cells self.old) (λ of. buffer.new ≡ of scan m)) }
        ensures steady { OnOk result (steady self.old self.new) }
        ensures fails { IfErr result (λ fault. fails self.old self.new fault) }
        ensures same_head { head self.new ≡ head self.old }
        ensures same_cells { cells self.new ≡ cells self.old };

    /// Each integration has its cells.
    ghost full: { (source : Self) → WhereTold (cells source) (IsFull (head source)) };

    /// What calls do goes on over any number of them.
    ghost composes: { Composes steady fails };
}
