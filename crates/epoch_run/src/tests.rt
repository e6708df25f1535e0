//! Epochs of one station, which is paired with itself: a scan of 128 samples of two bits in four frames, and no delay. Where nothing
//! else is said all samples have the level +3.
ghost use Rattle.std.specs.Prelude.{◌≡◌, ◌≤◌, ◌≤ℤ◌, pos, [], IfOk, IfSome, length};
ghost use Rattle.std.specs.List.{All};
ghost use Rattle.dev_traits.specs.Told.{WhereTold};
ghost use Rattle.num_time.specs.Times.{IsSecond};
ghost use Rattle.frame_index.specs.Recording.{IsOnShelf};

use crate::{run_bins, run_epoch};
use atomic_sums::EpochSums;
use corr_model::{Cell, Pair};
use delay_poly::{Poly, PolyEntry, PolyList};
use delay_track::{StationModel, Track};
use dev_traits::{Failed, Gate, Shelf};
use frame_index::{FileRef, Index};
use mem_devices::{HoldGate, MemShelf, OpenGate};
use num_time::Name;
use piece_plan::EpochPlan;
use station_clock::ClockList;
use station_stream::{StationChan, StationPart, Stream};
use std::alloc::{AllocError, Global};
use std::process::Abort;
use std::test::Fail;
use std::thread::Threads;
use vdif_frame::Shape;

// The second at which the scan begins, the first of 2010.
const SECOND: i64 = 1_262_304_000;

const SHAPE: Shape = Shape {
    legacy: false,
    frame_bytes: 40,
    chans_log2: 0,
    bits: 2,
    station: 1,
    frames: 4,
};

// The pair of each group.
const PAIR: Pair = Pair {
    a: 0,
    x: 0,
    b: 0,
    y: 0,
};

// The scan as one epoch with two groups of one piece each.
const PLAN: EpochPlan = EpochPlan {
    scan: 0,
    m: 0,
    from: 0,
    to: 128,
    products: 2,
    baselines: 1,
    lags: 2,
};

// Its first 100 samples as one epoch with two groups of two pieces each.
const BIN_PLAN: EpochPlan = EpochPlan {
    scan: 0,
    m: 0,
    from: 0,
    to: 100,
    products: 2,
    baselines: 1,
    lags: 2,
};

// A byte of four samples of level +3.
const HIGH: u8 = 0xFF;

// A frame of the scan's second.
fn frame(number: u8) -> [u8; 40] {
    let mut bytes = [0; 40];
    bytes[4] = number;
    bytes[7] = 20;
    bytes[8] = 5;
    bytes[12] = 1;
    bytes[15] = 4;
    bytes[32..].fill(HIGH);
    bytes
}

// All frames.
fn all_slots(alloc: Global) -> Result<Vec<u8>, AllocError> {
    let (first, second) = (frame(0), frame(1));
    let (third, fourth) = (frame(2), frame(3));
    let slots: [&[u8]; 4] = [&first, &second, &third, &fourth];
    slots.concat(alloc)
}

// A shelf with one file of these bytes, of which the calls of these numbers fail.
fn shelf_failing(alloc: Global, bytes: Vec<u8>, failing: Vec<u64>) -> Result<MemShelf, AllocError> {
    let name = String::from_str(alloc, "a.vdif")?;
    Ok(MemShelf::new(vec![in alloc; (name, bytes)]?, failing))
}

// The file of a name.
fn file_of<F: Shelf>(alloc: Global, shelf: &mut F, name: &str) -> Result<FileRef, Fail>
    ensures same { F.told shelf.new ≡ F.told shelf.old }
    ensures size { IfOk result (λ file. WhereTold (F.told shelf.old) (λ told. IsOnShelf told file)) }
{
    let size = shelf.size(name)?.ok_or("no file")?;
    Ok(FileRef {
        name: Name::new(alloc, name.as_bytes())?,
        size,
    })
}

// One polynomial.
fn polys_of(alloc: Global, coeffs: &[i64]) -> Result<PolyList, Fail>
    ensures { IfOk result (λ polys. All (λ e. IsSecond e.second) polys) }
{
    let mut polys = PolyList::new(alloc);
    let poly = Poly::new(coeffs).ok_or("no polynomial")?;
    polys.add(PolyEntry {
        second: SECOND,
        poly,
    })?;
    Ok(polys)
}

// The delays of the scan.
fn track_of<'a>(polys: &'a PolyList, clocks: &'a ClockList) -> Option<Track<'a>>
    requires polys { All (λ e. IsSecond e.second) polys.now }
    requires clocks { clocks.now ≡ [] }
    ensures rate { IfSome result (λ track. track.rate ≡ 128) }
    ensures samples { IfSome result (λ track. track.samples ≡ 128) }
{
    let model = StationModel {
        polys,
        clocks,
        second: SECOND,
        rate: 128,
        knot: 16,
        samples: 128,
    };
    if !model.has_model() || !model.has_clock() {
        return None;
    }
    Some(model.track())
}

// The stream of a recording with this delay, from sample `from` up to, not including, `to`, in the room of spare lists.
fn delayed_part<F: Shelf>(
    alloc: Global,
    spare: &mut Vec<Vec<u8>>,
    shelf: &mut F,
    coeffs: &[i64],
    from: i64,
    to: i64,
) -> Result<Stream, Fail>
    requires begin { pos 0 ≤ℤ from }
    requires order { from ≤ℤ to }
    requires end { to ≤ℤ pos 128 }
{
    let files = [file_of(alloc, shelf, "a.vdif")?];
    let index = Index::build(alloc, shelf, &files, &SHAPE)?;
    let polys = polys_of(alloc, coeffs)?;
    let clocks = ClockList::new(alloc);
    let track = track_of(&polys, &clocks).ok_or("no track")?;
    let chan = StationChan {
        thread: 0,
        index: 0,
        hertz: 0,
        upper: true,
    };
    let part = StationPart {
        files: &files,
        shape: SHAPE,
        track,
        from: 0,
        to: 128,
        chans: &[Some(chan)],
    };
    Ok(Stream::load_in(alloc, spare, shelf, &index, &part, from, to)?)
}

// The stream of the scan.
fn whole_stream(alloc: Global) -> Result<Stream, Fail> {
    let mut shelf = shelf_failing(alloc, all_slots(alloc)?, Vec::new(alloc))?;
    delayed_part(alloc, &mut Vec::new(alloc), &mut shelf, &[0], 0, 128)
}

// The sums of the scan.
fn summed<R: Threads + Sync, G: Gate + Sync>(
    rt: &R,
    alloc: Global,
    stream: Stream,
    workers: u32,
    gate: &G,
) -> Result<EpochSums, AllocError>
    requires { (1 ≤ workers) × (workers ≤ 64) }
    ensures { IfOk result (λ sums. length sums.cells ≡ 4) }
{
    run_epoch(
        rt,
        alloc,
        &[stream],
        &[PAIR, PAIR],
        128,
        &PLAN,
        128,
        workers,
        gate,
    )
}

// At lag -1 there are 127 pairs of 9 each, at lag 0 there are 128.
fn has_cells(rt: &impl Abort, sums: &EpochSums)
    requires { length sums.now.cells ≡ 4 }
{
    assert_eq!(rt; sums.pieces(), 2);
    for group in 0..2 {
        let (back, here) = (sums.cell(2 * group), sums.cell(2 * group + 1));
        assert_eq!(rt; (back.re, back.im, back.count), (1143, 0, 127));
        assert_eq!(rt; (here.re, here.im, here.count), (1152, 0, 128));
    }
}

// The sums of the first 100 samples in three bins of a pulse that turns once in 64 samples and begins at a quarter of a turn.
fn binned<R: Threads + Sync>(rt: &R, alloc: Global, stream: Stream) -> Result<EpochSums, Fail>
    ensures { IfOk result (λ sums. length sums.cells ≡ 12) }
{
    let polys = polys_of(alloc, &[1 << 30, 1 << 54])?;
    let clocks = ClockList::new(alloc);
    let track = track_of(&polys, &clocks).ok_or("no phase")?;
    let pairs = [PAIR, PAIR];
    let gate = OpenGate::new();
    let sums = run_bins(
        rt,
        alloc,
        &[stream],
        &pairs,
        128,
        &BIN_PLAN,
        &track,
        3,
        64,
        3,
        &gate,
    )?;
    Ok(sums)
}

// Sample n is of the bin that 3 (n + 16) / 64 without its whole turns gives, rounded down: samples 0 to 5 and 48 to 69 are of bin 0,
// 6 to 26 and 70 to 90 of bin 1, 27 to 47 and 91 to 99 of bin 2. A pair adds 9, and sample 0 has none at lag -1.
#[test]
fn bins_by_three_workers(rt: HostRuntime) -> Result<(), Fail> {
    let alloc = rt.alloc();
    let stream = whole_stream(alloc)?;
    let sums = binned(&rt, alloc, stream)?;
    assert_eq!(rt; sums.pieces(), 4);
    for group in 0..2 {
        for (bin, back, here) in [(0, 27, 28), (1, 42, 42), (2, 30, 30)] {
            let first = 6 * group + 2 * bin;
            assert_eq!(rt; sums.cell(first), of_pairs(back));
            assert_eq!(rt; sums.cell(first + 1), of_pairs(here));
        }
    }
    Ok(())
}

// The cell of so many pairs of 9 each.
fn of_pairs(count: u64) -> Cell
    requires { count ≤ 128 }
{
    Cell {
        re: 9 * count as i64,
        im: 0,
        count,
    }
}

#[test]
fn two_pieces_by_one_worker(rt: HostRuntime) -> Result<(), Fail> {
    let alloc = rt.alloc();
    let stream = whole_stream(alloc)?;
    let sums = summed(&rt, alloc, stream, 1, &OpenGate::new())?;
    has_cells(&rt, &sums);
    Ok(())
}

// The worker of the first piece waits for that of the second, and a third finds none.
#[test]
fn two_pieces_by_three_workers(rt: HostRuntime) -> Result<(), Fail> {
    let alloc = rt.alloc();
    let gate = HoldGate::new();
    let stream = whole_stream(alloc)?;
    let sums = summed(&rt, alloc, stream, 3, &gate)?;
    has_cells(&rt, &sums);
    assert!(rt; gate.saw_second());
    Ok(())
}

// A shelf whose file has these bytes by its size, of which reads give the first so many. It tells nothing.
#[derive(Drop)]
struct CutShelf {
    bytes: Vec<u8>,
    gives: usize,
}

impl Shelf for CutShelf {
    ghost use Rattle.std.specs.Prelude.{None};

    ghost told = { λ _. None };

    ghost faults = { λ _. 0 };

    fn size(&mut self, _name: &str) -> Result<Option<u64>, Failed> {
        Ok(Some(self.bytes.len() as u64))
    }

    fn read_at(&mut self, _name: &str, at: u64, buf: &mut [u8]) -> Result<usize, Failed> {
        let given = self.bytes.get(..self.gives).unwrap_or(&self.bytes);
        let left = given.get(at as usize..).unwrap_or(&[]);
        let n = left.len().min(buf.len());
        buf[..n].copy_from_slice(&left[..n]);
        Ok(n)
    }
}

// The data of frame 2 and the whole of frame 3 are not given, in room where they stood before.
#[test]
fn bytes_that_are_not_given_are_zero(rt: HostRuntime) -> Result<(), Fail> {
    let alloc = rt.alloc();
    let mut spare = Vec::new(alloc);
    let mut shelf = CutShelf {
        bytes: all_slots(alloc)?,
        gives: 160,
    };
    delayed_part(alloc, &mut spare, &mut shelf, &[0], 0, 128)?.leave(&mut spare);
    shelf.gives = 112;
    let stream = delayed_part(alloc, &mut spare, &mut shelf, &[0], 0, 128)?;
    for (n, value) in [
        (63, Some((3, 0))),
        (64, Some((-3, 0))),
        (95, Some((-3, 0))),
        (96, None),
    ] {
        assert_eq!(rt; stream.value(0, n), value);
    }
    Ok(())
}

// The delay rises by one sample each eight. The size of the file is asked, its headers are read, and its frames are read once:
// a fourth call would fail.
#[test]
fn frames_are_read_once_for_a_rising_delay(rt: HostRuntime) -> Result<(), Fail> {
    let alloc = rt.alloc();
    let slots = all_slots(alloc)?;
    let mut shelf = shelf_failing(alloc, slots, vec![in alloc; 3]?)?;
    let mut spare = Vec::new(alloc);
    let stream = delayed_part(alloc, &mut spare, &mut shelf, &[0, 1 << 57], 0, 112)?;
    assert_eq!(rt; stream.value(0, 111), Some((3, 0)));
    Ok(())
}
