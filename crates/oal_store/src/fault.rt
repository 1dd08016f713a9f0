// Why a call on a growing log fails.
ghost use Rattle.std.specs.Prelude.{◌≡◌};
ghost use Rattle.oal_store.specs.declared.fault.OalFault.{OalFault};
ghost use Rattle.oal_store.specs.Faults.{log_fault};

use file_pages::FileLogFault;
use rbu_disk::DiskFault;
use std::alloc::AllocError;
use wal_codec::LogFault;

/// Why the hidden log is not the one that was saved, or a call on it fails.
#[derive(Debug, Clone, Copy, PartialEq, Eq)]
pub enum OalFault {
    /// It does not begin with a log's header, or its pages have another size than the target's: refusal 100.
    LogHeader,
    /// It has fewer bytes than were saved: refusal 102.
    OalShort { has: u64, needs: u64 },
    /// A frame up to the saved size is not valid, where a part of a frame counts as one, the last one is no commit, or the checksum there is not the
    /// saved one: refusal 103. The number counts from 1; it is 0 where there is no frame.
    OalFrame { number: u64 },
    /// A call on the disk failed.
    Disk(DiskFault),
    /// Memory is wanting.
    Memory(AllocError),
}

impl From<DiskFault> for OalFault {
    ghost from_gives = { λ fault result. result ≡ OalFault.Disk fault };

    fn from(fault: DiskFault) -> OalFault {
        OalFault::Disk(fault)
    }
}

impl From<AllocError> for OalFault {
    ghost from_gives = { λ fault result. result ≡ OalFault.Memory fault };

    fn from(fault: AllocError) -> OalFault {
        OalFault::Memory(fault)
    }
}

impl From<FileLogFault> for OalFault {
    ghost from_gives = { λ fault result. result ≡ log_fault fault };

    fn from(fault: FileLogFault) -> OalFault {
        match fault {
            FileLogFault::InBytes(LogFault::LogHeader) => OalFault::LogHeader,
            FileLogFault::InBytes(LogFault::LogFrame { number }) => OalFault::OalFrame { number },
            FileLogFault::InBytes(LogFault::Memory(error)) => OalFault::Memory(error),
            FileLogFault::OfDisk(fault) => OalFault::Disk(fault),
        }
    }
}
