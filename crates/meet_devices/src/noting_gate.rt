use dev_traits::Gate;
use std::alloc::{AllocError, Global};
use std::sync::atomic::{AtomicU64, Ordering};
use std::time::Clock;

/// How many times a held worker looks whether the others have come.
const MOST_TURNS: u64 = 1_000_000_000;

/// What a gate was told of a piece: the worker, the piece's number, and when, in nanoseconds from any start on.
#[derive(Clone, Copy, Debug, PartialEq, Eq, Drop)]
pub struct Told {
    pub worker: u64,
    pub piece: u64,
    pub time: u64,
}

// The same while it is noted.
#[derive(Drop)]
struct Note {
    worker: AtomicU64,
    piece: AtomicU64,
    time: AtomicU64,
}

impl Note {
    fn new() -> Note {
        Note {
            worker: AtomicU64::new(0),
            piece: AtomicU64::new(0),
            time: AtomicU64::new(0),
        }
    }

    fn set(&self, told: Told) {
        self.worker.store(told.worker, Ordering::SeqCst);
        self.piece.store(told.piece, Ordering::SeqCst);
        self.time.store(told.time, Ordering::SeqCst);
    }

    fn told(&self) -> Told {
        Told {
            worker: self.worker.load(Ordering::SeqCst),
            piece: self.piece.load(Ordering::SeqCst),
            time: self.time.load(Ordering::SeqCst),
        }
    }
}

/// A gate that notes what it is told. It holds the first pieces until so many have come, each for at most 1,000,000,000 looks:
/// each of these is then of another worker. Where a worker's pieces are long and short in turn, the time from one to the next
/// shows on which of the two it worked meanwhile.
#[derive(Drop)]
pub struct NotingGate<'a, C: Clock> {
    clock: &'a C,
    together: u64,
    come: AtomicU64,
    notes: Vec<Note>,
}

impl<'a, C: Clock> NotingGate<'a, C> {
    /// A gate that no piece has come to. It holds the first `together`, and has room for `most` notes.
    pub fn new(
        alloc: Global,
        clock: &'a C,
        together: u64,
        most: u32,
    ) -> Result<NotingGate<'a, C>, AllocError> {
        let mut notes = Vec::new(alloc);
        for _ in 0..most {
            notes.push(Note::new())?;
        }
        Ok(NotingGate {
            clock,
            together,
            come: AtomicU64::new(0),
            notes,
        })
    }

    /// What it was told, in the order in which the pieces came, as far as there was room.
    pub fn told(&self, alloc: Global) -> Result<Vec<Told>, AllocError> {
        let come = self.come.load(Ordering::SeqCst) as usize;
        let mut all = Vec::new(alloc);
        for note in self.notes.iter().take(come) {
            all.push(note.told())?;
        }
        Ok(all)
    }

    // What the clock tells, or 0.
    fn time(&self) -> u64 {
        match self.clock.monotonic() {
            Ok(time) => u64::try_from(time.as_nanos()).unwrap_or(0),
            Err(_) => 0,
        }
    }

    // Looks until all that come together have come.
    fn hold(&self) {
        for _ in 0..MOST_TURNS {
            if self.come.load(Ordering::SeqCst) >= self.together {
                return;
            }
        }
    }
}

impl<'a, C: Clock> Gate for NotingGate<'a, C> {
    fn piece(&self, worker: u32, n: u64) {
        let time = self.time();
        let place = self.come.fetch_add(1, Ordering::SeqCst) as usize;
        if let Some(note) = self.notes.get(place) {
            note.set(Told {
                worker: u64::from(worker),
                piece: n,
                time,
            });
        }
        self.hold();
    }
}
