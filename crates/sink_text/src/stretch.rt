// A buffer before a sink.
ghost use Rattle.std.specs.Prelude.{◌≡◌, ◌≤◌, ◌<◌, ◌+◌, [], ◌++◌, length, false};
ghost use Rattle.sink_text.specs.Written.{Puts, Ends, StretchState};

use dev_traits::{Failed, Sink, write_all};
use std::marker::Model;

/// The most bytes that are held back from a sink.
const SIZE: usize = 8192;

/// Bytes on their way to a sink. They are held back until 8,192 of them would be passed, so that the sink gets
/// them in whole stretches. Once the sink has failed it gets nothing more; `finish` answers the fault. The sink
/// is the same one in every call.
#[derive(Drop)]
pub struct Stretch {
    bytes: [u8; SIZE],
    held: usize,
    failed: bool,
}

impl Model for Stretch {
    ghost use Rattle.std.specs.Prelude.{◌≤◌, take};
    ghost use Rattle.sink_text.specs.Written.{StretchState};

    ghost Value = { StretchState };

    ghost view = { λ s. record { held = take s.held s.bytes; failed = s.failed } };

    ghost invariant = { λ s. s.held ≤ 8192 };
}

impl Stretch {
    /// Nothing yet.
    pub fn new() -> Stretch
        ensures { result ≡ record { held = []; failed = false } }
    {
        Stretch {
            bytes: [0; SIZE],
            held: 0,
            failed: false,
        }
    }

    /// Puts bytes behind what is on its way.
    pub fn put<S: Sink>(&mut self, bytes: &[u8], out: &mut S)
        ensures { Puts bytes.now self.old self.new (S.told out.old) (S.told out.new) (S.faults out.old) (S.faults out.new) }
    {
        self.make_room(bytes.len(), out);
        if bytes.len() > SIZE {
            self.pass_on(bytes, out);
        } else {
            self.hold(bytes);
        }
    }

    /// Hands over what is held, and answers whether all of the text was appended.
    pub fn finish<S: Sink>(mut self, out: &mut S) -> Result<(), Failed>
        ensures { Ends self (S.told out.old) (S.told out.new) (S.faults out.old) (S.faults out.new) result }
    {
        self.hand_over(out);
        if self.failed { Err(Failed) } else { Ok(()) }
    }

    // Makes room for so many bytes; where there are more than can be held, for none.
    fn make_room<S: Sink>(&mut self, len: usize, out: &mut S)
        ensures puts { Puts [] self.old self.new (S.told out.old) (S.told out.new) (S.faults out.old) (S.faults out.new) }
        ensures room { len ≤ 8192 → length self.new.held + len ≤ 8192 }
        ensures empty { 8192 < len → self.new.held ≡ [] }
    {
        if len > SIZE - self.held {
            self.hand_over(out);
        }
    }

    // Hands over what is held.
    fn hand_over<S: Sink>(&mut self, out: &mut S)
        ensures puts { Puts [] self.old self.new (S.told out.old) (S.told out.new) (S.faults out.old) (S.faults out.new) }
        ensures empty { self.new.held ≡ [] }
    {
        if self.failed {
            self.held = 0;
            return;
        }
        let written = write_all(out, &self.bytes[..self.held]);
        self.held = 0;
        self.failed = written.is_err();
    }

    // Hands over bytes while none are held.
    fn pass_on<S: Sink>(&mut self, bytes: &[u8], out: &mut S)
        requires { self.old.held ≡ [] }
        ensures { Puts bytes.now self.old self.new (S.told out.old) (S.told out.new) (S.faults out.old) (S.faults out.new) }
    {
        if !self.failed {
            self.failed = write_all(out, bytes).is_err();
        }
    }

    // Holds bytes for which there is room.
    fn hold(&mut self, bytes: &[u8])
        requires { length self.old.held + length bytes.now ≤ 8192 }
        ensures held { self.new.held ≡ self.old.held ++ bytes.now }
        ensures failed { self.new.failed ≡ self.old.failed }
    {
        self.bytes[self.held..self.held + bytes.len()].copy_from_slice(bytes);
        self.held += bytes.len();
    }
}
