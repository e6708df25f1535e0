//! Sinks over writers.

use crate::calls::print_writes;
use anyhow::Result;
use real_devices::StdSink;
use std::io;
use std::io::Write;

/// Prints what a sink over a vector answers to calls, and gives its bytes.
pub fn write_vec(rt: &HostRuntime, calls: &str, bytes: &[u8]) -> Result<Vec<u8>> {
    let mut vec = Vec::new(rt.alloc());
    print_writes(rt, rt.alloc(), &mut StdSink::new(&mut vec), calls, bytes)?;
    Ok(vec)
}

/// The same of a slice of two bytes.
pub fn write_slice(rt: &HostRuntime, calls: &str, bytes: &[u8]) -> Result<Vec<u8>> {
    let mut room = [0; 2];
    let mut sink = StdSink::new(room.as_mut_slice());
    print_writes(rt, rt.alloc(), &mut sink, calls, bytes)?;
    drop(sink);
    Ok(Vec::from_slice(rt.alloc(), &room)?)
}

/// Prints what a sink over a writer whose first write fails answers to calls, and counts the writes that the writer got.
pub fn write_failing(rt: &HostRuntime, calls: &str, bytes: &[u8]) -> Result<u64> {
    let mut writer = FailsOnce { writes: 0 };
    print_writes(rt, rt.alloc(), &mut StdSink::new(&mut writer), calls, bytes)?;
    Ok(writer.writes)
}

// A writer whose first write fails, and whose further ones take all.
#[derive(Drop)]
struct FailsOnce {
    writes: u64,
}

impl Write for FailsOnce {
    fn write(&mut self, buf: &[u8]) -> io::Result<usize> {
        self.writes = self.writes.saturating_add(1);
        if self.writes == 1 {
            return Err(io::Error::from(io::ErrorKind::Other));
        }
        Ok(buf.len())
    }

    fn flush(&mut self) -> io::Result<()> {
        Ok(())
    }
}
