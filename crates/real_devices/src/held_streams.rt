// The numbers of the standard streams, held where the program was started without one.
use std::fs::File;
use std::os::fd::AsRawFd;
use std::rt::Files;

/// What stands under the descriptors 0, 1 and 2 where the program was started with one of them closed.
/// While it is held, no file of the program's own gets such a number, and a write to it fails.
#[derive(Drop)]
pub struct HeldStreams {
    files: [Option<File>; 3],
}

impl HeldStreams {
    /// Holds each of the three that is closed, by the root folder, opened for reading.
    pub fn new<R: Files<File = File>>(rt: &R) -> HeldStreams {
        HeldStreams {
            files: [held(rt), held(rt), held(rt)],
        }
    }
}

// The system gives a file the lowest number that is free.
fn held<R: Files<File = File>>(rt: &R) -> Option<File> {
    match File::open(rt, "/") {
        Ok(file) if file.as_raw_fd() <= 2 => Some(file),
        _ => None,
    }
}
