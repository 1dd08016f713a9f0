// An output in memory.
ghost use Rattle.std.specs.Prelude.{◌≡◌, ◌≤◌, ◌++◌, [], OnOk, OnErr, Some, is_err};
ghost use Rattle.rbu_disk.specs.Call.{CountsSinkFaults};
ghost use Rattle.disk_memory.specs.Calls.{CountsRefusal, is_listed};

use crate::calls::Calls;
use rbu_disk::{Sink, SinkFault};
use std::alloc::Global;
use std::marker::Model;

/// An output in memory, whose calls fail where their numbers stand in a list or no memory is found.
#[derive(Drop)]
pub struct MemorySink {
    written: Vec<u8>,
    calls: Calls,
}

impl Model for MemorySink {
    ghost use Rattle.disk_memory.specs.Sink.{SinkState};

    ghost Value = { SinkState };

    ghost view = { λ sink. record { written = sink.written.items; counts = sink.calls } };
}

impl MemorySink {
    /// An output to which nothing is written. The calls whose numbers from 0 stand in the list fail.
    pub fn new(alloc: Global, fail_list: Vec<u64>) -> MemorySink
        ensures { result ≡ record { written = []; counts = record { fail_list = fail_list.items; calls = 0; faults = 0; refused = 0 } } }
    {
        MemorySink {
            written: Vec::new(alloc),
            calls: Calls::new(fail_list),
        }
    }

    /// The bytes that were written.
    pub fn written(&self) -> &[u8]
        ensures { result.now ≡ self.now.written }
    {
        self.written.as_slice()
    }

    /// How many calls found no memory. It stands still at the last value of 64 bits.
    pub fn refused(&self) -> u64
        ensures { result ≡ self.now.counts.refused }
    {
        self.calls.refused()
    }
}

impl Sink for MemorySink {
    ghost written = { λ sink. Some sink.written };

    ghost faults = { λ sink. sink.counts.faults };

    /// Writes all the bytes, or where it fails none.
    fn write_all(&mut self, bytes: &[u8]) -> Result<(), SinkFault>
        ensures done { OnOk result (self.new.written ≡ self.old.written ++ bytes.now) }
        ensures failed { OnErr result (self.new.written ≡ self.old.written) }
        ensures counts { CountsRefusal (is_listed self.old.counts) (is_err result) self.old.counts self.new.counts }
        ensures cause { CountsSinkFaults self.old.counts.faults self.new.counts.faults result }
    {
        if self.calls.is_to_fail() {
            return Err(SinkFault);
        }
        match self.written.extend_from_slice(bytes) {
            Ok(()) => Ok(()),
            Err(_) => {
                self.calls.count_refusal();
                Err(SinkFault)
            }
        }
    }
}
