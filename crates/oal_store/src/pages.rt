// A growing log, lent as a store of pages.
ghost use Rattle.std.specs.Prelude.{◌≡◌, true};
ghost use Rattle.file_spec.specs.declared.FileName.TheVariants.{Target, Oal};
ghost use Rattle.rbu_disk.specs.Uses.{Reads};

use crate::fault::OalFault;
use crate::store::OalStore;
use page_store::{PageRead, PageWrite};
use rbu_disk::Disk;

/// The pages of a database under its hidden log, which its user makes of the two as a literal. A page that is written is kept in memory until the store's
/// next `commit`; nothing is written to the disk before.
#[derive(Drop)]
pub struct OalPages<'a, D: Disk> {
    pub store: &'a mut OalStore,
    pub disk: &'a mut D,
    ghost target: { D.test disk.now (Reads Target) ≡ true },
    ghost log: { D.test disk.now (Reads Oal) ≡ true },
}

impl<'a, D: Disk> PageRead for OalPages<'a, D> {
    type Fault = OalFault;

    ghost use Rattle.std.specs.Prelude.{option_map};
    ghost use Rattle.rbu_disk.specs.Call.{Failures};
    ghost use Rattle.oal_store.specs.Faults.{Fails};
    ghost use Rattle.oal_store.specs.Lent.{Loan};
    ghost use Rattle.oal_store.specs.Stored.{stored_pages};

    ghost size = { λ pages. pages.store.now.log.page_size };

    ghost usable = { λ pages. pages.store.now.log.usable };

    ghost count = { λ pages. pages.store.now.count };

    ghost pages = { λ pages. option_map (stored_pages pages.store.now) (D.shown pages.disk.now) };

    ghost Faults = { Failures };

    ghost faults = { λ pages. D.failures pages.disk.now };

    ghost fault_count = { λ failures. failures.count };

    ghost Fails = { Fails };

    ghost Fixed = { Loan };

    ghost fixed = { λ pages. record { store = pages.store.ghost_name; disk = pages.disk.ghost_name; log = pages.store.now.log; trail = D.trail pages.disk.now; test = D.test pages.disk.now } };

    fn page_size(&self) -> u32 {
        self.store.log.page_size
    }

    fn usable(&self) -> u32 {
        self.store.log.usable
    }

    fn count(&self) -> u32 {
        self.store.count
    }

    fn page(&mut self, number: u32, into: &mut [u8]) -> Result<(), OalFault> {
        self.store.read(self.disk, number, into)?;
        Ok(())
    }
}

impl<'a, D: Disk> PageWrite for OalPages<'a, D> {
    fn set_page(&mut self, number: u32, bytes: &[u8]) -> Result<(), OalFault> {
        self.store.put(number, bytes)?;
        Ok(())
    }

    fn set_count(&mut self, count: u32) -> Result<(), OalFault> {
        self.store.resize(count)?;
        Ok(())
    }
}
