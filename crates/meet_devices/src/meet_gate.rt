use crate::flags::Flags;
use dev_traits::Gate;
use std::sync::Arc;
use std::sync::atomic::{AtomicBool, Ordering};

/// A gate that holds the first piece until its shelf is read past a place, for at most 1,000,000,000
/// looks.
#[derive(Drop)]
pub struct MeetGate {
    flags: Arc<Flags>,
    saw_shelf: AtomicBool,
}

impl MeetGate {
    /// A gate over these flags that no piece has come to.
    pub(crate) fn new(flags: Arc<Flags>) -> MeetGate {
        MeetGate {
            flags,
            saw_shelf: AtomicBool::new(false),
        }
    }

    /// Whether the first piece, while it was held, saw the shelf's read, and that read the piece: so
    /// each went on while the other was under way.
    pub fn met(&self) -> bool {
        self.saw_shelf.load(Ordering::SeqCst) && self.flags.shelf_saw_gate()
    }
}

impl Gate for MeetGate {
    fn piece(&self, _worker: u32, _n: u64) {
        if self.flags.gate_comes() {
            self.saw_shelf.store(true, Ordering::SeqCst);
        }
    }
}
