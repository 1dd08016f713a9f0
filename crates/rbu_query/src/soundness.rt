// Whether a database is sound, over a store of pages.
ghost use Rattle.std.specs.Prelude.{◌≡◌, ◌≤◌, ◌++◌, IfOk, OnOk};
ghost use Rattle.std.specs.Fmt.{decimal};
ghost use Rattle.page_store.specs.Store.{HasSizes, OwesBy};
ghost use Rattle.tree_spec.specs.Worlds.{greatest_count};
ghost use Rattle.tree_walk.specs.Stores.{SeesTree};
ghost use Rattle.database_spec.specs.RightRows.{HasCatalog};
ghost use Rattle.db_check.specs.Answers.{fault_in as check_fault_in};
ghost use Rattle.table_dump.specs.Answers.{Answers, fault_in};
ghost use Rattle.check_spec.specs.Checks.{IsSoundAnswer, sound_line};
ghost use Rattle.rbu_query.specs.Answers.{of_check_fault};

use crate::tables::of_catalog;
use database_spec::Catalog;
use db_check::CheckFault;
use file_check::{Census, check};
use itoa::Buffer;
use page_store::PageRead;
use rbu_value::Bytes;
use refusal::Refusal;
use schema_read::read_catalog;
use std::alloc::{AllocError, Global};
use table_dump::PrintFault;

// Why a database is not sound.
fn of_check<F>(fault: CheckFault<F>) -> PrintFault<F>
    ensures is { result ≡ of_check_fault fault }
    ensures cause { fault_in result ≡ check_fault_in fault }
{
    match fault {
        CheckFault::PageTwice { page } => PrintFault::Refused(Refusal::PageTwice {
            page: u64::from(page),
        }),
        CheckFault::PageLost { page } => PrintFault::Refused(Refusal::PageLost {
            page: u64::from(page),
        }),
        CheckFault::KeyOrder { page } => PrintFault::Refused(Refusal::KeyOrder {
            page: u64::from(page),
        }),
        CheckFault::IndexDisagrees { index, rowid } => {
            PrintFault::Refused(Refusal::IndexDisagrees { index, rowid })
        }
        CheckFault::Damaged { page, rule } => PrintFault::Refused(Refusal::Damaged {
            page: u64::from(page),
            rule,
        }),
        CheckFault::Store(fault) => PrintFault::Store(fault),
        CheckFault::Memory(error) => PrintFault::Memory(error),
    }
}

// Appends a number in decimal digits.
fn push_number(text: &mut Vec<u8>, number: u32) -> Result<(), AllocError>
    ensures { OnOk result (text.new.items ≡ text.old.items ++ decimal number) }
{
    let mut digits = Buffer::new();
    text.extend_from_slice(digits.format(number).as_bytes())
}

// Appends the line of a sound database.
fn push_sound(text: &mut Vec<u8>, census: Census) -> Result<(), AllocError>
    ensures { OnOk result (text.new.items ≡ text.old.items ++ sound_line census.pages census.trees) }
{
    text.extend_from_slice(b"sound ")?;
    push_number(text, census.pages)?;
    text.extend_from_slice(b" ")?;
    push_number(text, census.trees)?;
    text.extend_from_slice(b"\n")
}

// The line of a sound database.
fn sound_text(alloc: Global, census: Census) -> Result<Bytes, AllocError>
    ensures { IfOk result (λ text. text ≡ sound_line census.pages census.trees) }
{
    let mut text = Vec::new(alloc);
    push_sound(&mut text, census)?;
    Ok(Bytes::from_vec(text))
}

// The line of a sound database by its catalog, or what `check` of `file_check` refuses.
fn check_known<S: PageRead>(
    alloc: Global,
    store: &mut S,
    catalog: &Catalog,
) -> Result<Bytes, PrintFault<S::Fault>>
    requires sizes { HasSizes S.PageRead store.old }
    requires some { 1 ≤ S.count store.old }
    requires few { S.count store.old ≤ greatest_count }
    ensures pages { SeesTree S.PageRead store.old store.new (λ sizes base. HasCatalog sizes base catalog.now → Answers (IsSoundAnswer sizes base) result) }
    ensures owes { OwesBy S.PageRead fault_in store.old store.new result }
{
    match check(alloc, store, catalog) {
        Ok(census) => match sound_text(alloc, census) {
            Ok(text) => Ok(text),
            Err(error) => Err(PrintFault::Memory(error)),
        },
        Err(fault) => Err(of_check(fault)),
    }
}

/// The line of a sound database, of at most 2^24 pages. Or refuses what is wrong with the schema, [55], [62] or [63], and then the first fault of the file, [70] to [74].
pub(crate) fn check_store<S: PageRead>(
    alloc: Global,
    store: &mut S,
) -> Result<Bytes, PrintFault<S::Fault>>
    requires sizes { HasSizes S.PageRead store.old }
    requires some { 1 ≤ S.count store.old }
    requires few { S.count store.old ≤ greatest_count }
    ensures pages { SeesTree S.PageRead store.old store.new (λ sizes base. Answers (IsSoundAnswer sizes base) result) }
    ensures owes { OwesBy S.PageRead fault_in store.old store.new result }
{
    match read_catalog(alloc, store) {
        Ok(catalog) => check_known(alloc, store, catalog.known()),
        Err(fault) => Err(of_catalog(fault)),
    }
}
