ghost use Rattle.std.specs.Prelude.{◌≡◌, ◌≤◌, ◌<◌, ◌↔◌, [], length, take, min, IfOk, OnOk, OnErr, IsErr, IsTrue, Some, true, false};
ghost use Rattle.dev_traits.specs.{Fault.{Counts}, Told.{more}};
ghost use Rattle.mem_devices.specs.MemSinkState.{fails_next, after_taking, after_failing};

use dev_traits::{Failed, Sink};
use std::alloc::Global;
use std::marker::Model;

/// Bytes in memory that grow at their end. The writes are numbered from 0: those listed fail, and
/// besides only a write that finds no memory.
#[derive(Drop)]
pub struct MemSink {
    bytes: Vec<u8>,
    most: usize,
    failing: Vec<u64>,
    calls: u64,
    faults: u64,
    refused: bool,
}

impl Model for MemSink {
    ghost use Rattle.std.specs.Prelude.{◌<◌};
    ghost use Rattle.mem_devices.specs.MemSinkState.{MemSinkState};

    ghost Value = { MemSinkState };

    ghost view = { λ sink. record {
      bytes = sink.bytes.items;
      most = sink.most;
      failing = sink.failing.items;
      calls = sink.calls;
      faults = sink.faults;
      refused = sink.refused;
    } };

    ghost invariant = { λ sink. 0 < sink.most };
}

impl MemSink {
    /// An empty sink, of which one write takes at most `most` bytes. `failing` lists the numbers of
    /// the writes that fail, in any order.
    pub fn new(alloc: Global, most: usize, failing: Vec<u64>) -> MemSink
        requires { 0 < most }
        ensures { result ≡ record {
          bytes = [];
          most = most;
          failing = failing.items;
          calls = 0;
          faults = 0;
          refused = false;
        } }
    {
        MemSink {
            bytes: Vec::new(alloc),
            most,
            failing,
            calls: 0,
            faults: 0,
            refused: false,
        }
    }

    /// Whether the last write failed for want of memory.
    pub fn refused(&self) -> bool
        ensures { result ≡ self.now.refused }
    {
        self.refused
    }

    /// What was appended.
    pub fn bytes(&self) -> &[u8]
        ensures { result.now ≡ self.now.bytes }
    {
        &self.bytes
    }
}

impl Sink for MemSink {
    ghost told = { λ sink. Some sink.bytes };

    ghost faults = { λ sink. sink.faults };

    fn write(&mut self, bytes: &[u8]) -> Result<usize, Failed>
        ensures within { IfOk result (λ n. n ≤ length bytes.now) }
        ensures some { IfOk result (λ n. 0 < length bytes.now → 0 < n) }
        ensures appended { IfOk result
            (λ n. Some self.new.bytes ≡ more (Some self.old.bytes) (take n bytes.now)) }
        ensures nothing { OnErr result (Some self.new.bytes ≡ Some self.old.bytes) }
        ensures counts { Counts self.old.faults self.new.faults result }

        ensures takes { IfOk result (λ n. n ≡ min (length bytes.now) self.old.most) }
        ensures taken { IfOk result (λ n. self.new ≡ after_taking self.old (take n bytes.now)) }
        ensures failed { OnErr result (self.new ≡ after_failing self.old self.new.refused) }

        // A listed write fails, and any other only for want of memory.
        ensures listed_fails { IsTrue (fails_next self.old) → IsErr result }
        ensures listed_is_not_refused { IsTrue (fails_next self.old) → self.new.refused ≡ false }
        ensures unlisted { fails_next self.old ≡ false → (IsErr result ↔ IsTrue self.new.refused) }
    {
        let fails = self.failing.contains(&self.calls);
        self.calls = self.calls.saturating_add(1);
        self.refused = false;
        if fails {
            self.faults = self.faults.saturating_add(1);
            return Err(Failed);
        }
        let n = bytes.len().min(self.most);
        if self.bytes.extend_from_slice(&bytes[..n]).is_err() {
            self.refused = true;
            self.faults = self.faults.saturating_add(1);
            return Err(Failed);
        }
        Ok(n)
    }
}
