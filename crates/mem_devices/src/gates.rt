//! Gates: one that is open, one that counts, and one that holds the first worker.
use dev_traits::Gate;
use std::sync::atomic::{AtomicU64, Ordering};

/// How many times a held worker looks whether another has come.
const MOST_TURNS: u64 = 1_000_000_000;

/// A gate that does nothing.
#[derive(Drop)]
pub struct OpenGate;

impl OpenGate {
    /// A gate that does nothing.
    pub fn new() -> OpenGate {
        OpenGate
    }
}

impl Gate for OpenGate {
    fn piece(&self, _worker: u32, _n: u64) {}
}

/// A gate that counts the pieces that pass it.
#[derive(Drop)]
pub struct CountingGate {
    calls: AtomicU64,
}

impl CountingGate {
    /// A gate that no piece has passed.
    pub fn new() -> CountingGate {
        CountingGate {
            calls: AtomicU64::new(0),
        }
    }

    /// The number of pieces that have passed.
    pub fn calls(&self) -> u64 {
        self.calls.load(Ordering::SeqCst)
    }
}

impl Gate for CountingGate {
    fn piece(&self, _worker: u32, _n: u64) {
        self.calls.fetch_add(1, Ordering::SeqCst);
    }
}

/// A gate that holds the first piece until a second has come to it, for at most 1,000,000,000 looks.
#[derive(Drop)]
pub struct HoldGate {
    come: AtomicU64,
    seen: AtomicU64,
}

impl HoldGate {
    /// A gate that no piece has come to.
    pub fn new() -> HoldGate {
        HoldGate {
            come: AtomicU64::new(0),
            seen: AtomicU64::new(0),
        }
    }

    /// Whether the first piece, while it was held, saw a second come.
    pub fn saw_second(&self) -> bool {
        self.seen.load(Ordering::SeqCst) == 1
    }

    // Looks for a second piece until it has come.
    fn hold(&self) {
        for _ in 0..MOST_TURNS {
            if self.come.load(Ordering::SeqCst) >= 2 {
                self.seen.store(1, Ordering::SeqCst);
                return;
            }
        }
    }
}

impl Gate for HoldGate {
    fn piece(&self, _worker: u32, _n: u64) {
        if self.come.fetch_add(1, Ordering::SeqCst) == 0 {
            self.hold();
        }
    }
}
