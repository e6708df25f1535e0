// The name of a file, kept without taking memory.
ghost use Rattle.std.specs.Prelude.{◌≡◌, ◌≤◌, ◌↔◌, IsTrue, IfSome, length};

use std::marker::Model;

/// No path of the system is longer.
const LONGEST: usize = 4096;

/// A name of at most 4096 bytes, which contracts see as its bytes.
#[derive(Drop)]
pub struct PathName {
    bytes: [u8; LONGEST],
    length: usize,
}

impl Model for PathName {
    ghost use Rattle.std.specs.Prelude.{◌≤◌, ℕ, List, take};

    ghost Value = { List ℕ };

    ghost view = { λ name. take name.length name.bytes };

    ghost invariant = { λ name. name.length ≤ 4096 };
}

impl PathName {
    /// A copy of the name; `None` where it is longer.
    pub fn new(name: &str) -> Option<PathName>
        ensures { IfSome result (λ copy. copy ≡ name.now) }
    {
        let name = name.as_bytes();
        let length = name.len();
        if length > LONGEST {
            return None;
        }
        let mut bytes = [0; LONGEST];
        bytes[..length].copy_from_slice(name);
        Some(PathName { bytes, length })
    }

    /// Whether it is that name.
    pub fn is(&self, name: &str) -> bool
        ensures { IsTrue result ↔ (self.now ≡ name.now) }
    {
        &self.bytes[..self.length] == name.as_bytes()
    }
}
