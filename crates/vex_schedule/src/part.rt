//! What a setup gives a station.
ghost use Rattle.vex_schedule.specs.Sound.{IsSetup};

use scan_list::ChanList;

/// The sample rate and the channels of a def of `$FREQ`.
#[derive(Drop)]
pub(crate) struct Setup {
    pub rate: u32,
    pub chans: ChanList,
    pub ghost sound: { IsSetup rate chans },
}
