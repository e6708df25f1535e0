//! The files of a station, and how they are cut.
ghost use Rattle.std.specs.Prelude.{◌≡◌, ◌≤◌, ◌<◌, ◌+◌, ◌-◌, ◌*◌, ◌/◌, ◌^◌, MatchOption, length};
ghost use Rattle.vdif_frame.specs.Shape.{IsShape};
ghost use Rattle.frame_index.specs.{Layouts.{IsLayoutOf}, Recording.{slots_by_size}};

use num_time::Name;
use vdif_frame::Shape;

/// A file of a station: its name, which is a text, and its size in bytes.
#[derive(Debug, Drop)]
pub struct FileRef {
    pub name: Name,
    pub size: u64,
}

/// The bytes that are read at once, at most.
pub const PIECE: usize = 131_072;

/// Where a slot is longer than this, its header alone is read.
pub const LONG: usize = 4096;

/// How slots are cut and read, in bytes: a slot's length, that of its front in which its header stands, and how
/// many slots are read at once.
#[derive(Clone, Copy)]
pub struct Layout {
    pub size: usize,
    pub head: usize,
    pub most: u64,
}

impl Layout {
    /// That of the slots of a shape.
    pub fn of(shape: &Shape) -> Layout
        ensures { IsLayoutOf shape.now result }
    {
        let _bounds = shape.head_bytes();
        let size = shape.frame_bytes as usize;
        Layout {
            size,
            head: size.min(32),
            most: most_at_once(size),
        }
    }

    /// The bytes from the begin of the first of `n` slots to the end of the last one's header.
    pub fn heads_len(&self, n: u64) -> usize
        requires some { 1 ≤ n }
        requires fits { n * self.now.size ≤ PIECE }
        requires head { self.now.head ≤ self.now.size }
        ensures value { result ≡ (n - 1) * self.now.size + self.now.head }
        ensures fits { result ≤ PIECE }
    {
        (n as usize - 1) * self.size + self.head
    }
}

// How many slots of a length are read at once.
fn most_at_once(size: usize) -> u64
    requires some { 0 < size }
    requires fits { size ≤ PIECE }
    ensures some { 1 ≤ result }
    ensures fits { result * size ≤ PIECE }
{
    if size > LONG {
        1
    } else {
        (PIECE / size) as u64
    }
}

/// How many slots of a length the files have; None where that is more than `most`.
pub fn count_slots(files: &[FileRef], size: u64, most: u64) -> Option<u64>
    requires { 0 < size }
    ensures { MatchOption result (most < slots_by_size size files.now)
        (λ slots. (slots ≡ slots_by_size size files.now) × (slots ≤ most)) }
{
    let mut total = 0;
    for file in files {
        let slots = file.size / size;
        if slots > most - total {
            return None;
        }
        total += slots;
    }
    Some(total)
}
