//! Schedules.
ghost use Rattle.scan_list.specs.Sound.{AreScans};

use crate::scan::Scan;
use item_list::ItemList;

/// The scans of a schedule, in its order.
#[derive(Debug, Drop)]
pub struct ScanList {
    pub scans: ItemList<Scan>,
    pub ghost sound: { AreScans scans },
}
