// Reads the catalog of a store of pages.
ghost use Rattle.std.specs.Prelude.{◌≡◌, ◌≤◌, None, IfOk, IfErr, length, map};
ghost use Rattle.common_spec.specs.Reading.{OrFault};
ghost use Rattle.page_store.specs.Store.{HasSizes, Looks, OwesBy, Sees};
ghost use Rattle.tree_spec.specs.Faults.{fault_in as tree_fault_in};
ghost use Rattle.tree_spec.specs.Standing.{Paged, Sizes};
ghost use Rattle.schema_read.specs.declared.read.CatalogFault.{CatalogFault};
ghost use Rattle.schema_read.specs.Answers.{IsOther, ReadsCatalog, ReadsMembers, Say, SaysOrOther, catalog_fault, fault_in, format_in, told_of_tree};
ghost use Rattle.schema_read.specs.Checks.{IsBasis};
ghost use Rattle.schema_read.specs.Rows.{member_of};

use crate::catalog::catalog_of;
use crate::check::{Basis, RowFault, check_all};
use crate::found::find_all;
use crate::lookup::Catalog;
use byte_fields::u32_at;
use database_spec::Catalog as KnownCatalog;
use page_store::{PageRead, page_buffer};
use rbu_value::Bytes;
use refusal::Rule;
use std::alloc::{AllocError, Global};
use tree_rows::table_rows;
use tree_walk::{Row, TreeFault};

/// Why a database has no catalog. `F` is what the store answers where it fails.
#[derive(Drop)]
pub enum CatalogFault<F> {
    /// The tree of the schema is damaged: refusal 55. The page that holds what is wrong.
    TreeDamaged { page: u64, rule: Rule },
    /// A row of the schema is not as it has to be: refusal 62.
    SchemaRow { rowid: i64 },
    /// A second table, view or index has this name: refusal 63.
    DuplicateName { name: Bytes },
    /// The store failed.
    Store(F),
    /// Memory ran out.
    Memory(AllocError),
}

impl<F> From<AllocError> for CatalogFault<F> {
    ghost from_gives = { λ error fault. fault ≡ CatalogFault.Memory error };

    fn from(error: AllocError) -> CatalogFault<F> {
        CatalogFault::Memory(error)
    }
}

// What stops the walk over the schema's tree. A walk takes no page, and so it meets no freelist and no limit.
fn of_tree<F>(fault: TreeFault<F>) -> CatalogFault<F>
    ensures is { result ≡ told_of_tree fault }
    ensures cause { fault_in result ≡ tree_fault_in fault }
{
    match fault {
        TreeFault::TreeDamaged { page, rule } => CatalogFault::TreeDamaged { page, rule },
        TreeFault::TrunkDamaged { page } => CatalogFault::TreeDamaged {
            page,
            rule: Rule::Trunk,
        },
        TreeFault::TargetFull {
            pages: page,
            limit: _,
        } => CatalogFault::TreeDamaged {
            page,
            rule: Rule::Count,
        },
        TreeFault::Store(fault) => CatalogFault::Store(fault),
        TreeFault::Memory(error) => CatalogFault::Memory(error),
    }
}

// The fault of a row.
fn of_row<F>(fault: RowFault) -> CatalogFault<F>
    ensures is { result ≡ catalog_fault fault }
    ensures cause { fault_in result ≡ None }
{
    match fault {
        RowFault::SchemaRow { rowid } => CatalogFault::SchemaRow { rowid },
        RowFault::DuplicateName { name } => CatalogFault::DuplicateName { name },
        RowFault::Memory(error) => CatalogFault::Memory(error),
    }
}

// The catalog that the members of the schema's tree say, or the first fault of one.
fn say(alloc: Global, basis: Basis, members: &[Row]) -> Result<KnownCatalog, RowFault>
    requires some { 1 ≤ basis.size }
    requires few { basis.count ≤ 4294967295 }
    ensures { (sizes : Sizes) (base : Paged) → IsBasis basis sizes base → Say sizes base (map member_of members.now) result }
{
    match find_all(alloc, members) {
        Ok(found) => match check_all(alloc, basis, &found) {
            Ok(placed) => match catalog_of(alloc, found.into_vec(), placed) {
                Ok(catalog) => Ok(catalog),
                Err(error) => Err(RowFault::Memory(error)),
            },
            Err(fault) => Err(fault),
        },
        Err(error) => Err(RowFault::Memory(error)),
    }
}

// The members of the schema's tree.
fn read_members<S: PageRead>(
    alloc: Global,
    store: &mut S,
) -> Result<Vec<Row>, CatalogFault<S::Fault>>
    requires sizes { HasSizes S.PageRead store.old }
    requires some { 1 ≤ S.count store.old }
    ensures pages { Sees S.PageRead store.old store.new (λ m. ReadsMembers (record { size = S.size store.old; usable = S.usable store.old }) (record { count = S.count store.old; pages = m }) result) }
    ensures owes { OwesBy S.PageRead fault_in store.old store.new result }
{
    match table_rows(alloc, store, 1) {
        Ok(rows) => Ok(rows),
        Err(fault) => Err(of_tree(fault)),
    }
}

// The bytes of page 1.
fn first_page<S: PageRead>(alloc: Global, store: &mut S) -> Result<Vec<u8>, CatalogFault<S::Fault>>
    requires { 1 ≤ S.count store.old }
    ensures pages { Looks S.PageRead store.old store.new result (λ bytes m. bytes.items ≡ m 1) }
    ensures whole { IfOk result (λ bytes. length bytes.items ≡ S.size store.old) }
    ensures other { IfErr result IsOther }
    ensures owes { OwesBy S.PageRead fault_in store.old store.new result }
{
    let mut buffer = page_buffer(alloc, store.page_size())?;
    match store.page(1, buffer.as_mut_slice()) {
        Ok(()) => Ok(buffer),
        Err(fault) => Err(CatalogFault::Store(fault)),
    }
}

// The schema format that counts, by the header in page 1.
fn format_of(page: &[u8]) -> u32
    requires { 48 ≤ length page.now }
    ensures { result ≡ format_in page.now }
{
    let format = u32_at(page, 44);
    if format == 0 {
        return 1;
    }
    format
}

// What the rows of the schema stand on.
fn read_basis<S: PageRead>(alloc: Global, store: &mut S) -> Result<Basis, CatalogFault<S::Fault>>
    requires sizes { HasSizes S.PageRead store.old }
    requires some { 1 ≤ S.count store.old }
    ensures pages { Looks S.PageRead store.old store.new result (λ basis m. IsBasis basis (record { size = S.size store.old; usable = S.usable store.old }) (record { count = S.count store.old; pages = m })) }
    ensures whole { IfOk result (λ basis. 1 ≤ basis.size) }
    ensures few { IfOk result (λ basis. basis.count ≤ 4294967295) }
    ensures other { IfErr result IsOther }
    ensures owes { OwesBy S.PageRead fault_in store.old store.new result }
{
    let page = first_page(alloc, store)?;
    Ok(Basis {
        size: store.page_size(),
        count: store.count(),
        format: format_of(page.as_slice()),
    })
}

// The catalog that the members of the schema's tree say, over the database that the store has.
fn say_in<S: PageRead>(
    alloc: Global,
    store: &mut S,
    members: &[Row],
) -> Result<KnownCatalog, CatalogFault<S::Fault>>
    requires sizes { HasSizes S.PageRead store.old }
    requires some { 1 ≤ S.count store.old }
    ensures pages { Sees S.PageRead store.old store.new (λ m. SaysOrOther (record { size = S.size store.old; usable = S.usable store.old }) (record { count = S.count store.old; pages = m }) (map member_of members.now) result) }
    ensures owes { OwesBy S.PageRead fault_in store.old store.new result }
{
    match read_basis(alloc, store) {
        Ok(basis) => match say(alloc, basis, members) {
            Ok(catalog) => Ok(catalog),
            Err(fault) => Err(of_row(fault)),
        },
        Err(fault) => Err(fault),
    }
}

// The catalog as it is defined.
fn read_known<S: PageRead>(
    alloc: Global,
    store: &mut S,
) -> Result<KnownCatalog, CatalogFault<S::Fault>>
    requires sizes { HasSizes S.PageRead store.old }
    requires some { 1 ≤ S.count store.old }
    ensures pages { Sees S.PageRead store.old store.new (λ m. ReadsCatalog (record { size = S.size store.old; usable = S.usable store.old }) (record { count = S.count store.old; pages = m }) result) }
    ensures owes { OwesBy S.PageRead fault_in store.old store.new result }
{
    match read_members(alloc, store) {
        Ok(members) => say_in(alloc, store, members.as_slice()),
        Err(fault) => Err(fault),
    }
}

/// The catalog of a database: its tables, views and indexes by the rows of its schema.
///
/// Or refusal 62, the first row that is not right, with its rowid, or 63, a second table, view or index of one name; of one row 62 comes first. 55 is refused where the
/// tree of the schema is damaged. Each row's record is decoded once.
pub fn read_catalog<S: PageRead>(
    alloc: Global,
    store: &mut S,
) -> Result<Catalog, CatalogFault<S::Fault>>
    requires sizes { HasSizes S.PageRead store.old }
    requires some { 1 ≤ S.count store.old }
    ensures pages { Sees S.PageRead store.old store.new (λ m. ReadsCatalog (record { size = S.size store.old; usable = S.usable store.old }) (record { count = S.count store.old; pages = m }) result) }
    ensures owes { OwesBy S.PageRead fault_in store.old store.new result }
{
    match read_known(alloc, store) {
        Ok(known) => match Catalog::of(alloc, known) {
            Ok(catalog) => Ok(catalog),
            Err(error) => Err(CatalogFault::Memory(error)),
        },
        Err(fault) => Err(fault),
    }
}
