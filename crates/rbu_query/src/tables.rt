// The answer of a dump of a table, over a store of pages.
ghost use Rattle.std.specs.Prelude.{◌≡◌, ◌≤◌};
ghost use Rattle.page_store.specs.Store.{HasSizes, OwesBy};
ghost use Rattle.tree_walk.specs.Stores.{SeesTree};
ghost use Rattle.schema_read.specs.Answers.{fault_in as catalog_fault_in};
ghost use Rattle.dump_spec.specs.TableDumps.{IsTableAnswer};
ghost use Rattle.table_dump.specs.Answers.{Answers, fault_in};
ghost use Rattle.rbu_query.specs.Answers.{of_catalog_fault};

use page_store::PageRead;
use rbu_value::Bytes;
use refusal::Refusal;
use schema_read::{CatalogFault, read_catalog};
use std::alloc::Global;
use table_dump::{PrintFault, dump_named};

/// Why there is no catalog.
pub(crate) fn of_catalog<F>(fault: CatalogFault<F>) -> PrintFault<F>
    ensures is { result ≡ of_catalog_fault fault }
    ensures cause { fault_in result ≡ catalog_fault_in fault }
{
    match fault {
        CatalogFault::TreeDamaged { page, rule } => {
            PrintFault::Refused(Refusal::TreeDamaged { page, rule })
        }
        CatalogFault::SchemaRow { rowid } => PrintFault::Refused(Refusal::SchemaRow { rowid }),
        CatalogFault::DuplicateName { name } => {
            PrintFault::Refused(Refusal::DuplicateName { name })
        }
        CatalogFault::Store(fault) => PrintFault::Store(fault),
        CatalogFault::Memory(error) => PrintFault::Memory(error),
    }
}

/// The lines of the rows of the table with this name, where the case of ASCII letters does not count. Or refuses what is wrong with the schema, [55], [62] or [63], and then what `dump_named` refuses.
pub(crate) fn dump_table<S: PageRead>(
    alloc: Global,
    store: &mut S,
    name: &[u8],
) -> Result<Bytes, PrintFault<S::Fault>>
    requires sizes { HasSizes S.PageRead store.old }
    requires some { 1 ≤ S.count store.old }
    ensures pages { SeesTree S.PageRead store.old store.new (λ sizes base. Answers (IsTableAnswer sizes base name.now) result) }
    ensures owes { OwesBy S.PageRead fault_in store.old store.new result }
{
    match read_catalog(alloc, store) {
        Ok(catalog) => dump_named(alloc, store, catalog.known(), name),
        Err(fault) => Err(of_catalog(fault)),
    }
}
