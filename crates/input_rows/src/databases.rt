// Reads the two databases.
ghost use Rattle.std.specs.Prelude.{◌≤◌, IfSome, IsTrue};
ghost use Rattle.page_store.specs.Store.{HasSizes};

use db_header::{Header, read_header};
use disk_host::HostDisk;
use file_pages::{FilePages, file_start};
use owned_list::OwnedList;
use page_store::PageRead;
use rbu_disk::FileName;
use rbu_input::{StoreFault, are_known, are_rooted, plain_target, read_prepared};
use rbu_rows::Batch;
use schema_read::{Catalog, read_catalog};
use std::alloc::Global;
use std::rt::Files;

/// What a reader of prepared rows answers.
#[derive(Drop)]
pub enum Answer {
    /// The prepared rows, as groups of batches.
    Rows(OwnedList<OwnedList<Batch>>),
    /// They are refused, or a record of a targeted table.
    Refused,
}

// A database that was opened.
#[derive(Drop)]
struct Opened {
    header: Header,
    catalog: Catalog,
    ghost sized: { header.reserved ≤ header.page_size },
}

// Whether there is a page, and the sizes are those of a database.
fn is_whole<S: PageRead>(store: &S) -> bool
    ensures sizes { IsTrue result → HasSizes S.PageRead store.now }
    ensures some { IsTrue result → 1 ≤ S.count store.now }
{
    let size = store.page_size();
    let usable = store.usable();
    480 <= usable && usable <= size && size <= 65536 && 1 <= store.count()
}

// The header of a database, if it has one.
fn header_of<R: Files + Drop>(disk: &mut HostDisk<R>, file: FileName) -> Option<Header>
    ensures { IfSome result (λ header. header.reserved ≤ header.page_size) }
{
    let mut start = [0; 100];
    let Ok((n, len)) = file_start(disk, file, None, &mut start) else {
        return None;
    };
    let Ok(header) = read_header(&start[..n], len) else {
        return None;
    };
    if u32::from(header.reserved) > header.page_size {
        return None;
    }
    Some(header)
}

// The catalog of pages.
fn catalog_in<R: Files + Drop>(
    alloc: Global,
    pages: &mut FilePages<HostDisk<R>>,
) -> Option<Catalog> {
    if !is_whole(pages) {
        return None;
    }
    read_catalog(alloc, pages).ok()
}

// Opens a database.
fn open<R: Files + Drop>(alloc: Global, disk: &mut HostDisk<R>, file: FileName) -> Option<Opened> {
    let Some(header) = header_of(disk, file) else {
        return None;
    };
    let mut pages = FilePages {
        disk,
        file,
        log: None,
        header,
    };
    match catalog_in(alloc, &mut pages) {
        Some(catalog) => Some(Opened { header, catalog }),
        None => None,
    }
}

// The prepared rows of pages. None where the disk or memory fails.
fn rows_in<R: Files + Drop>(
    alloc: Global,
    pages: &mut FilePages<HostDisk<R>>,
    rbu: &Catalog,
    target: &Catalog,
) -> Option<Answer> {
    if !is_whole(pages) || !are_rooted(rbu.known(), pages.count()) {
        return None;
    }
    match read_prepared(alloc, pages, rbu.known(), target.known()) {
        Ok(groups) => Some(Answer::Rows(groups)),
        Err(StoreFault::Refused(_)) => Some(Answer::Refused),
        Err(_) => None,
    }
}

// Whether the records of the tables of batches are rows of them. None where the disk or memory fails.
fn are_plain<R: Files + Drop>(
    alloc: Global,
    pages: &mut FilePages<HostDisk<R>>,
    catalog: &Catalog,
    batches: &[Batch],
) -> Option<bool> {
    if !is_whole(pages) || !are_known(catalog.known(), pages.count(), batches) {
        return None;
    }
    match plain_target(alloc, pages, catalog.known(), batches) {
        Ok(()) => Some(true),
        Err(StoreFault::Refused(_)) => Some(false),
        Err(_) => None,
    }
}

// The prepared rows of the RBU database for a target.
fn read_rbu<R: Files + Drop>(
    alloc: Global,
    disk: &mut HostDisk<R>,
    rbu: &Opened,
    target: &Catalog,
) -> Option<Answer> {
    let mut pages = FilePages {
        disk,
        file: FileName::Rbu,
        log: None,
        header: rbu.header,
    };
    rows_in(alloc, &mut pages, &rbu.catalog, target)
}

// Whether the records of the tables that groups are for are rows of them.
fn check_target<R: Files + Drop>(
    alloc: Global,
    disk: &mut HostDisk<R>,
    target: &Opened,
    groups: &[OwnedList<Batch>],
) -> Option<bool> {
    let mut pages = FilePages {
        disk,
        file: FileName::Target,
        log: None,
        header: target.header,
    };
    for group in groups {
        match are_plain(alloc, &mut pages, &target.catalog, group.as_slice()) {
            Some(true) => {}
            other => return other,
        }
    }
    Some(true)
}

/// What the reader of prepared rows answers of the files. None where one is no database with a catalog, or where the disk or memory fails.
pub fn read_all<R: Files + Drop>(alloc: Global, disk: &mut HostDisk<R>) -> Option<Answer> {
    let target = open(alloc, disk, FileName::Target)?;
    let rbu = open(alloc, disk, FileName::Rbu)?;
    match read_rbu(alloc, disk, &rbu, &target.catalog)? {
        Answer::Rows(groups) => {
            if check_target(alloc, disk, &target, groups.as_slice())? {
                Some(Answer::Rows(groups))
            } else {
                Some(Answer::Refused)
            }
        }
        Answer::Refused => Some(Answer::Refused),
    }
}
