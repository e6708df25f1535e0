//! The slots of a frame.
ghost use Rattle.std.specs.Prelude.{◌≡◌, ◌+◌, ◌<◌, ◌++◌, ℕ, false};
ghost use Rattle.sink_text.specs.Written.{Puts};
ghost use Rattle.vdif_frame.specs.Header.{header_bytes};
ghost use Rattle.sample_gen.specs.{Words.{AreNext}, Frames.{header_of, slots_by, frame_slots}};

use crate::words::draw_array;
use dev_traits::Sink;
use rand_core::Rng;
use rand_xoshiro::SplitMix64;
use sink_text::Stretch;
use vdif_frame::Header;

/// Frames in a second.
pub(crate) const FRAMES: u32 = 10;

// Puts the slots of a station's frame `k`, made of the next words.
pub(crate) fn put_frame<S: Sink>(
    station: u32,
    k: u32,
    words: &mut SplitMix64,
    slots: &mut Stretch,
    out: &mut S,
)
    requires station { station < 4 }
    requires k { k < 600 }
    ensures next { (seed n : ℕ) → AreNext seed n words.old → AreNext seed (n + 1001) words.new }
    ensures puts { (seed n : ℕ) → AreNext seed n words.old
        → Puts (frame_slots seed n station k) slots.old slots.new (S.told out.old) (S.told out.new) (S.faults out.old) (S.faults out.new) }
{
    let word = words.next_u64();
    let array = draw_array(words);
    put_slots(word, station, k, &array, slots, out);
}

// Puts the slots that a word gives a frame with this data array.
fn put_slots<S: Sink>(
    word: u64,
    station: u32,
    k: u32,
    array: &[u8],
    slots: &mut Stretch,
    out: &mut S,
)
    requires station { station < 4 }
    requires k { k < 600 }
    ensures { Puts (slots_by word station k array.now) slots.old slots.new (S.told out.old) (S.told out.new) (S.faults out.old) (S.faults out.new) }
{
    match word % 32 {
        0 => {}
        1 => put_slot(&header(true, station, k), array, slots, out),
        2 => {
            put_slot(&header(false, station, k), array, slots, out);
            put_slot(&header(false, station, k), &[0; 8000], slots, out);
        }
        _ => put_slot(&header(false, station, k), array, slots, out),
    }
}

// Puts a header and the data array behind it.
fn put_slot<S: Sink>(header: &Header, array: &[u8], slots: &mut Stretch, out: &mut S)
    requires { header.now.legacy ≡ false }
    ensures { Puts (header_bytes header.now ++ array.now) slots.old slots.new (S.told out.old) (S.told out.new) (S.faults out.old) (S.faults out.new) }
{
    let mut bytes = [0; 32];
    header.write(&mut bytes);
    slots.put(&bytes, out);
    slots.put(array, out);
}

// The header of a station's frame `k`.
fn header(invalid: bool, station: u32, k: u32) -> Header
    requires station { station < 4 }
    requires k { k < 600 }
    ensures { result ≡ header_of invalid station k }
{
    Header {
        invalid,
        legacy: false,
        seconds: k / FRAMES,
        spare: 0,
        epoch: 20,
        frame: k % FRAMES,
        version: 0,
        chans_log2: 1,
        units: 1004,
        complex: false,
        bits: 2,
        thread: 0,
        station: station as u16,
        extended: [0; 16],
    }
}
