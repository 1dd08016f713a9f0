// The faults of the disk.
ghost use Rattle.std.specs.Prelude.{◌≡◌, IsErr, MatchResult, None, Ok};
ghost use Rattle.rbu_disk.specs.Call.{HasCause};

use rbu_disk::{DiskCall, DiskFault, FileName};
use std::io;
use std::marker::Model;

/// How many calls failed, and the fault of the last. The count stands still at the last value of 64 bits.
#[derive(Drop)]
pub struct Faults {
    count: u64,
    last: Option<DiskFault>,
}

impl Model for Faults {
    ghost use Rattle.rbu_disk.specs.Call.{Failures};

    ghost Value = { Failures };

    ghost view = { λ faults. record { count = faults.count; last = faults.last } };
}

impl Faults {
    /// No call failed.
    pub fn new() -> Faults
        ensures { result ≡ record { count = 0; last = None } }
    {
        Faults {
            count: 0,
            last: None,
        }
    }

    /// What a call answers, given what came of it. An error of the system is a fault, which is counted and kept.
    pub fn answer<T: Drop>(
        &mut self,
        file: FileName,
        call: DiskCall,
        done: io::Result<T>,
    ) -> Result<T, DiskFault>
        ensures value { MatchResult done (λ value. result ≡ Ok value) (λ _. IsErr result) }
        ensures cause { HasCause self.old self.new file call result }
    {
        match done {
            Ok(value) => Ok(value),
            Err(_) => {
                let fault = DiskFault { file, call };
                self.count = self.count.saturating_add(1);
                self.last = Some(fault);
                Err(fault)
            }
        }
    }
}
