// An output that takes bytes.
ghost use Rattle.std.specs.Prelude.{◌≡◌, ◌++◌, List, ℕ, Option, OnOk, OnErr};
ghost use Rattle.common_spec.specs.Told.{Leads};

use thiserror::Error;

/// The output did not take all that it was given.
#[derive(Clone, Copy, Debug, PartialEq, Eq, Error)]
#[error("the output failed")]
pub struct SinkFault;

/// An output. Where it tells what was written, `written` is that list.
pub trait Sink {
    ghost use Rattle.rbu_disk.specs.Call.{CountsSinkFaults, GrewByPrefix};

    ghost written: { Self → Option (List ℕ) };

    ghost faults: { Self → ℕ };

    /// Writes all the bytes. After a fault a prefix of them may be written.
    fn write_all(&mut self, bytes: &[u8]) -> Result<(), SinkFault>
        ensures done { OnOk result (Leads (λ text now. now ≡ text ++ bytes.now) (written self.old) (written self.new)) }
        ensures failed { OnErr result (Leads (GrewByPrefix bytes.now) (written self.old) (written self.new)) }
        ensures cause { CountsSinkFaults (faults self.old) (faults self.new) result };
}
