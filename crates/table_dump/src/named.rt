// Prints a table by its name.
ghost use Rattle.std.specs.Prelude.{◌≡◌, ◌≤◌, None};
ghost use Rattle.page_store.specs.Store.{HasSizes, OwesBy};
ghost use Rattle.tree_walk.specs.Stores.{SeesTree};
ghost use Rattle.database_spec.specs.RightRows.{HasCatalog};
ghost use Rattle.prepared_spec.specs.Plans.{table_named as table_named_in};
ghost use Rattle.dump_spec.specs.TableDumps.{IsMeantAnswer, IsNamedAnswer};
ghost use Rattle.table_dump.specs.Answers.{Answers, HasRoot, fault_in};
ghost use Rattle.table_dump.specs.Rows.{PrintsTree};

use crate::fault::{PrintFault, of_row};
use crate::refused::{refuse_name, refuse_text};
use crate::rows::print_tree;
use database_spec::{Catalog, NamedEntry};
use page_store::PageRead;
use rbu_value::Bytes;
use refusal::{Refusal, Rule};
use row_values::table_named;
use schema_spec::Table;
use std::alloc::Global;

// No page has this number.
fn no_root<F>(root: u32) -> PrintFault<F>
    ensures { fault_in result ≡ None }
{
    PrintFault::Refused(Refusal::TreeDamaged {
        page: root as u64,
        rule: Rule::Child,
    })
}

// Prints the tree of a table. Every catalog has a root within the store; where a store tells nothing, this has to be seen.
fn print_root<S: PageRead>(
    alloc: Global,
    store: &mut S,
    root: u32,
    name: &[u8],
    table: &Table,
) -> Result<Bytes, PrintFault<S::Fault>>
    requires { HasSizes S.PageRead store.old }
    ensures pages { SeesTree S.PageRead store.old store.new (λ sizes base. 1 ≤ root → root ≤ base.count → PrintsTree name.now table.now sizes base root result) }
    ensures owes { OwesBy S.PageRead fault_in store.old store.new result }
{
    if root < 1 {
        return Err(no_root(root));
    }
    if root > store.count() {
        return Err(no_root(root));
    }
    print_tree(alloc, store, root, name, table)
}

// Prints a table of a catalog, or refuses its text.
fn print_entry<S: PageRead>(
    alloc: Global,
    store: &mut S,
    named: &NamedEntry,
) -> Result<Bytes, PrintFault<S::Fault>>
    requires { HasSizes S.PageRead store.old }
    ensures pages { SeesTree S.PageRead store.old store.new (λ sizes base. HasRoot base named.now → Answers (IsMeantAnswer sizes base named.now named.now.entry.meaning) result) }
    ensures owes { OwesBy S.PageRead fault_in store.old store.new result }
{
    let name = named.name.as_slice();
    match &named.entry.meaning {
        Ok(table) => print_root(alloc, store, named.entry.root, name, table),
        Err(fault) => Err(of_row(refuse_text(alloc, name, *fault))),
    }
}

/// The lines of the rows of the table with this name in the catalog of a store, where the case of ASCII letters does not count: of each its rowid and its values. Or refuses a name that no table and
/// no view has, [84]; a text, [60] or [61]; and else the first record that is no row, [96], or the damage that a walk meets before, [55]. Each row is read once.
pub fn dump_named<S: PageRead>(
    alloc: Global,
    store: &mut S,
    catalog: &Catalog,
    name: &[u8],
) -> Result<Bytes, PrintFault<S::Fault>>
    requires { HasSizes S.PageRead store.old }
    ensures pages { SeesTree S.PageRead store.old store.new (λ sizes base. HasCatalog sizes base catalog.now → Answers (IsNamedAnswer sizes base name.now (table_named_in name.now catalog.now.tables)) result) }
    ensures owes { OwesBy S.PageRead fault_in store.old store.new result }
{
    match table_named(catalog.tables.as_slice(), name) {
        Some(named) => print_entry(alloc, store, named),
        None => Err(of_row(refuse_name(alloc, name))),
    }
}
