// The sink over the standard output.
ghost use Rattle.std.specs.Prelude.{◌≡◌, IfOk};

use crate::transfers::write_all;
use rbu_disk::{Sink, SinkFault};
use std::alloc::AllocError;
use std::io;
use std::io::Print;

/// The standard output of `R`. What was written is not told. The count of faults stands still at the last value of 64 bits.
#[derive(Drop)]
pub struct HostSink<R> {
    rt: R,
    faults: u64,
}

impl<R: Print + Clone> HostSink<R> {
    /// The standard output. It takes memory only where a copy of the runtime does.
    pub fn new(rt: &R) -> Result<HostSink<R>, AllocError>
        ensures { IfOk result (λ sink. ⟦<HostSink<R> as Sink>⟧.faults sink ≡ 0) }
    {
        Ok(HostSink {
            rt: rt.clone()?,
            faults: 0,
        })
    }
}

impl<R: Print + Drop> Sink for HostSink<R> {
    ghost use Rattle.std.specs.Prelude.{None};

    ghost written = { λ _. None };

    ghost faults = { λ sink. sink.faults };

    fn write_all(&mut self, bytes: &[u8]) -> Result<(), SinkFault> {
        match write_all(&mut io::writer(&self.rt), bytes) {
            Ok(()) => Ok(()),
            Err(_) => {
                self.faults = self.faults.saturating_add(1);
                Err(SinkFault)
            }
        }
    }
}
