// What a shelf, a disk and a gate tell one another.
use std::sync::atomic::{AtomicBool, Ordering};

/// How many times one looks whether the other has come.
const MOST_TURNS: u64 = 1_000_000_000;

/// The four flags of one meeting. None is set at first, and one that is set stays so.
#[derive(Drop)]
pub struct Flags {
    armed: AtomicBool,
    gate_came: AtomicBool,
    shelf_came: AtomicBool,
    shelf_saw_gate: AtomicBool,
}

impl Flags {
    /// Flags of which none is set.
    pub fn new() -> Flags {
        Flags {
            armed: AtomicBool::new(false),
            gate_came: AtomicBool::new(false),
            shelf_came: AtomicBool::new(false),
            shelf_saw_gate: AtomicBool::new(false),
        }
    }

    /// From now on the shelf comes to meet the gate.
    pub fn arm(&self) {
        self.armed.store(true, Ordering::SeqCst);
    }

    /// Whether the shelf is to come.
    pub fn is_armed(&self) -> bool {
        self.armed.load(Ordering::SeqCst)
    }

    /// The gate comes, and the first time waits for the shelf. Answers whether it saw it then.
    pub fn gate_comes(&self) -> bool {
        !self.gate_came.swap(true, Ordering::SeqCst) && sees(&self.shelf_came)
    }

    /// The shelf comes, and the first time waits for the gate.
    pub fn shelf_comes(&self) {
        if !self.shelf_came.swap(true, Ordering::SeqCst) && sees(&self.gate_came) {
            self.shelf_saw_gate.store(true, Ordering::SeqCst);
        }
    }

    /// Whether the shelf, when it came, saw the gate.
    pub fn shelf_saw_gate(&self) -> bool {
        self.shelf_saw_gate.load(Ordering::SeqCst)
    }
}

// Looks for a flag until it is set, and answers whether it was.
fn sees(flag: &AtomicBool) -> bool {
    for _ in 0..MOST_TURNS {
        if flag.load(Ordering::SeqCst) {
            return true;
        }
    }
    false
}
