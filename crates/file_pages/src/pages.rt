// The pages of a file.
ghost use Rattle.std.specs.Prelude.{◌≡◌, ◌≤◌, true};
ghost use Rattle.std.specs.Option.{option_copied};
ghost use Rattle.file_spec.specs.declared.FileName.TheVariants.{Wal};
ghost use Rattle.rbu_disk.specs.Uses.{Reads};
ghost use Rattle.file_pages.specs.Overlay.{Allows, Suits};
ghost use Rattle.file_pages.specs.SuitsLaws.{allows-prop, suits-prop};

use crate::overlay::page_place;
use crate::reads::read_part;
use db_header::Header;
use page_store::PageRead;
use rbu_disk::{Disk, DiskFault, FileName};
use wal_codec::Log;

/// The pages of a file of a disk that is lent, by the header that `read_header` gave for its first bytes (Database File Format,
/// section 1.3), under the frames of the write-ahead log up to its last commit where one is given (section 4.5). A log is what `file_log` gave of that log's
/// file, and the header is then that of the overlay. Bytes that the file does not have, though its header promises them, are zero.
/// A page is read where it stands, and nothing is kept of it.
#[derive(Drop)]
pub struct FilePages<'a, 'b, D: Disk> {
    pub disk: &'a mut D,
    pub file: FileName,
    pub log: Option<&'b Log>,
    pub header: Header,
    ghost allowed: { D.test disk.now (Reads file) ≡ true },
    ghost log_allowed: { Allows (option_copied log) (D.test disk.now (Reads Wal)) } by { allows-prop (option_copied log) (D.test disk.now (Reads Wal)) },
    ghost log_suits: { Suits (option_copied log) header.page_size } by { suits-prop (option_copied log) header.page_size },
    ghost sized: { header.reserved ≤ header.page_size },
}

impl<'a, 'b, D: Disk> PageRead for FilePages<'a, 'b, D> {
    type Fault = DiskFault;

    ghost use Rattle.std.specs.Prelude.{◌-◌, option_map};
    ghost use Rattle.rbu_disk.specs.Call.{Failures, Fails};
    ghost use Rattle.file_pages.specs.FileMap.{Loan};
    ghost use Rattle.file_pages.specs.Overlay.{count_over, pages_over};

    ghost size = { λ pages. pages.header.page_size };

    ghost usable = { λ pages. pages.header.page_size - pages.header.reserved };

    ghost count = { λ pages. count_over (option_copied pages.log) pages.header };

    ghost pages = { λ pages. option_map (pages_over pages.header.page_size (option_copied pages.log) pages.file) (D.shown pages.disk.now) };

    ghost Faults = { Failures };

    ghost faults = { λ pages. D.failures pages.disk.now };

    ghost fault_count = { λ failures. failures.count };

    ghost Fails = { Fails };

    ghost Fixed = { Loan };

    ghost fixed = { λ pages. record { lent = pages.disk.ghost_name; trail = D.trail pages.disk.now; test = D.test pages.disk.now } };

    fn page_size(&self) -> u32 {
        self.header.page_size
    }

    fn usable(&self) -> u32 {
        self.header.page_size - u32::from(self.header.reserved)
    }

    fn count(&self) -> u32 {
        match self.log {
            Some(log) if log.committed != 0 => log.commit_pages,
            _ => self.header.pages,
        }
    }

    fn page(&mut self, number: u32, into: &mut [u8]) -> Result<(), DiskFault> {
        let place = page_place(self.log, self.file, self.header.page_size, number);
        read_part(self.disk, place.file, place.at, into)?;
        Ok(())
    }
}
