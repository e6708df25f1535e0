//! The channels of a setup.
ghost use Rattle.std.specs.Prelude.{◌≡◌, IfOk};

use crate::scan::Chan;
use item_list::ItemList;
use std::alloc::{AllocError, Global};
use std::marker::Model;
use std::sync::Arc;

/// The channels of a setup, in its order. The stations that have one setup share one list.
#[derive(Debug, Drop)]
pub struct ChanList {
    chans: Arc<ItemList<Chan>>,
}

impl Model for ChanList {
    ghost use Rattle.std.specs.Prelude.{List};
    ghost use Rattle.scan_list.specs.declared.scan.Chan.{Chan};

    ghost Value = { List Chan };

    ghost view = { λ list. list.chans.value };
}

impl ChanList {
    /// The list of these channels.
    pub fn of(alloc: Global, chans: Vec<Chan>) -> Result<Self, AllocError>
        ensures { IfOk result (λ list. list ≡ chans.items) }
    {
        Ok(ChanList {
            chans: Arc::new(alloc, ItemList::of(chans))?,
        })
    }

    /// The channels.
    pub fn items(&self) -> &[Chan]
        ensures { result.now ≡ self.now }
    {
        self.chans.items()
    }

    /// The same list, for one more station.
    pub fn share(&self) -> Result<Self, AllocError>
        ensures { IfOk result (λ list. list ≡ self.now) }
    {
        Ok(ChanList {
            chans: self.chans.clone()?,
        })
    }
}
