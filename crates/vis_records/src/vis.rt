//! A record file in memory.
ghost use Rattle.std.specs.Prelude.{◌≡◌};
ghost use Rattle.corr_model.specs.Records.{IsVis};

use crate::head::VisHead;
use corr_model::Cell;
use item_list::ItemList;
use std::marker::Model;

/// What a record file says: its head, and one cell for each lag of each record that the head asks for, in the
/// order of the records, then by rising lag.
#[derive(Debug, Drop)]
pub struct Vis {
    head: VisHead,
    cells: ItemList<Cell>,
}

impl Model for Vis {
    ghost use Rattle.corr_model.specs.Records.{IsVis};
    ghost use Rattle.vis_records.specs.Content.{Content};

    ghost Value = { Content };

    ghost view = { λ v. record { head = v.head; cells = v.cells } };

    ghost invariant = { λ v. IsVis v.head v.cells };
}

impl Vis {
    /// The content of this head and these cells, of which there are as many as the head asks for.
    pub fn new(head: VisHead, cells: ItemList<Cell>) -> Vis
        requires { IsVis head cells }
        ensures { result ≡ record { head = head; cells = cells } }
    {
        Vis { head, cells }
    }

    /// The head.
    pub fn head(&self) -> &VisHead
        ensures head { result.now ≡ self.now.head }
        ensures vis { IsVis self.now.head self.now.cells }
    {
        &self.head
    }

    /// The cells: of each record those of all lags, by rising lag.
    pub fn cells(&self) -> &[Cell]
        ensures cells { result.now ≡ self.now.cells }
        ensures vis { IsVis self.now.head self.now.cells }
    {
        self.cells.items()
    }
}
