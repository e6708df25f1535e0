//! The recording of a station.
ghost use Rattle.std.specs.Prelude.{◌≡◌, ◌≤◌, ◌<◌, ◌*◌};
ghost use Rattle.sink_text.specs.Appends.{Appends};
ghost use Rattle.sample_gen.specs.Frames.{recording_of};

use crate::frame::{FRAMES, put_frame};
use crate::words::words_after;
use dev_traits::Sink;
use sink_text::Stretch;
use vis_records::{SinkFault, end};

/// Appends the recording of station 0 to 3 in a job of 1 to 60 seconds, in stretches of up to 8,192 bytes. The station's
/// words follow those of the stations before it, which are drawn and dropped. Where the sink fails, what was appended
/// before stays.
pub fn generate<S: Sink>(
    seed: u64,
    seconds: u32,
    station: u32,
    out: &mut S,
) -> Result<(), SinkFault>
    requires some { 1 ≤ seconds }
    requires few { seconds ≤ 60 }
    requires station { station < 4 }
    ensures { Appends (S.told out.old) (S.told out.new) (recording_of seed seconds station) (S.faults out.old) (S.faults out.new) result }
{
    let frames = FRAMES * seconds;
    let mut words = words_after(seed, 1001 * (frames * station));
    let mut slots = Stretch::new();
    for k in 0..frames {
        put_frame(station, k, &mut words, &mut slots, out);
    }
    end(slots, out)
}
