// Goes through the rows of the schema in their order, up to the first that has a fault.
ghost use Rattle.std.specs.Prelude.{◌≡◌, ◌↔◌, ◌<◌, ◌++◌, IfOk, IsTrue, OnOk, Some, option_to_list, take};
ghost use Rattle.std.specs.List.{AllByRecursion, position};
ghost use Rattle.tree_spec.specs.Standing.{Paged, Sizes};
ghost use Rattle.database_spec.specs.declared.catalog.SchemaKind.{SchemaKind};
ghost use Rattle.database_spec.specs.Catalogs.{IsTableMeaning};
ghost use Rattle.database_spec.specs.RightRows.{IsNamedAlike, IsRightTable, is_virtual as is_virtual_meaning};
ghost use Rattle.schema_spec.specs.declared.schema.SqlFault.{SqlFault};
ghost use Rattle.schema_read.specs.declared.check.RowFault.{RowFault};
ghost use Rattle.schema_read.specs.Found.{IsFoundMeaning, IsMeant, has_table, rows_in};
ghost use Rattle.schema_read.specs.Checks.{ChecksAll, ChecksRow, HasRightRoot, IsBasis, IsDuplicate, JudgesIndex, JudgesRow, KeysStand, Places, PlacesRow, is_virtual_fault as is_virtual_of};

use crate::found::{Found, real_meaning};
use crate::meanings::index_meaning;
use crate::members::Members;
use database_spec::{SchemaKind, SchemaRow};
use rbu_value::Bytes;
use schema_spec::{Clause, Index, SqlFault, Table};
use schema_tokens::same_name;
use std::alloc::{AllocError, Global};

/// Why the rows of a schema say no catalog.
#[derive(Drop)]
pub(crate) enum RowFault {
    /// Refusal 62.
    SchemaRow { rowid: i64 },
    /// Refusal 63.
    DuplicateName { name: Bytes },
    Memory(AllocError),
}

impl From<AllocError> for RowFault {
    ghost from_gives = { λ error fault. fault ≡ RowFault.Memory error };

    fn from(error: AllocError) -> RowFault {
        RowFault::Memory(error)
    }
}

/// What the rows stand on: the size of a page, the number of pages, and the schema format.
#[derive(Clone, Copy)]
pub(crate) struct Basis {
    pub size: u32,
    pub count: u32,
    pub format: u32,
}

/// An index with the place of its table among the members.
#[derive(Drop)]
pub(crate) struct Placed {
    pub at: usize,
    pub root: u32,
    pub meaning: Result<Index, SqlFault>,
}

fn is_virtual_clause(clause: Clause) -> bool
    ensures { result ≡ is_virtual_of (SqlFault.OutsideProfile clause) }
{
    match clause {
        Clause::Virtual => true,
        _ => false,
    }
}

fn is_virtual_fault(fault: SqlFault) -> bool
    ensures { result ≡ is_virtual_of fault }
{
    match fault {
        SqlFault::SqlSyntax { offset: _ } => false,
        SqlFault::OutsideProfile { clause } => is_virtual_clause(clause),
        SqlFault::Memory(_) => false,
    }
}

// The meaning is that of a virtual table.
fn is_virtual(meaning: &Result<Table, SqlFault>) -> bool
    ensures { result ≡ is_virtual_meaning meaning.now }
{
    match meaning {
        Ok(_) => false,
        Err(fault) => is_virtual_fault(*fault),
    }
}

// Whether a table of this meaning may have the root.
fn is_right_root(
    basis: Basis,
    members: &Members,
    at: usize,
    root: u64,
    meaning: &Result<Table, SqlFault>,
) -> bool
    requires { 0 < basis.size }
    ensures { IsTrue result ↔ HasRightRoot basis (take at members.now) root meaning.now }
{
    if is_virtual(meaning) {
        return root == 0;
    }
    members
        .own_root(at, basis.size, basis.count, root)
        .is_some()
}

// Whether the text of a table names it as its row does, and its automatic indexes are there.
fn keys_stand(
    alloc: Global,
    members: &Members,
    row: &SchemaRow,
    table: &Table,
) -> Result<bool, AllocError>
    ensures { IfOk result (λ stand. IsTrue stand ↔ KeysStand members.now row.now table.now) }
{
    if !same_name(table.name.as_slice(), row.name.as_slice()) {
        return Ok(false);
    }
    members.has_all_automatic(alloc, row.name.as_slice(), table.unique.as_slice().len())
}

// Whether the row of a table of this meaning is right.
fn is_right_table(
    alloc: Global,
    basis: Basis,
    members: &Members,
    at: usize,
    row: &SchemaRow,
    meaning: &Result<Table, SqlFault>,
) -> Result<bool, AllocError>
    requires some { 0 < basis.size }
    requires means { IsTableMeaning SchemaKind.Table row.now.sql meaning.now }
    ensures { IfOk result (λ right. (sizes : Sizes) (base : Paged) → IsBasis basis sizes base → IsTrue right ↔ IsRightTable sizes base (rows_in members.now) (rows_in (take at members.now)) row.now) }
{
    if !same_name(row.table.as_slice(), row.name.as_slice()) {
        return Ok(false);
    }
    if !is_right_root(basis, members, at, row.root, meaning) {
        return Ok(false);
    }
    match meaning {
        Ok(table) => keys_stand(alloc, members, row, table),
        Err(_) => Ok(true),
    }
}

// Whether the text of an index, if it is read, names it and its table as the row does.
fn is_named_alike(row: &SchemaRow, meaning: &Result<Index, SqlFault>) -> bool
    ensures { IsTrue result ↔ IfOk meaning.now (IsNamedAlike row.now) }
{
    match meaning {
        Ok(index) => {
            same_name(index.name.as_slice(), row.name.as_slice())
                && same_name(index.table.as_slice(), row.table.as_slice())
        }
        Err(_) => true,
    }
}

// An index of a table of this meaning with its place, where its text names it as its row does.
fn place(
    alloc: Global,
    format: u32,
    row: &SchemaRow,
    table: &Result<Table, SqlFault>,
    at: usize,
    root: u32,
) -> Result<Option<Placed>, AllocError>
    ensures { IfOk result (Places format row.now table.now at root) }
{
    match index_meaning(alloc, format, row, table) {
        Ok(Some(meaning)) => {
            if is_named_alike(row, &meaning) {
                return Ok(Some(Placed { at, root, meaning }));
            }
            Ok(None)
        }
        Ok(None) => Ok(None),
        Err(error) => Err(error),
    }
}

// The place of the first table or view of the name of an index's table.
fn place_for(members: &Members, row: &SchemaRow) -> Option<usize>
    ensures { result ≡ position (has_table row.now.table) members.now }
{
    members.table_place(row.table.as_slice())
}

// The index that a row describes, by the place of its table, where all but its root is right.
fn place_at(
    alloc: Global,
    format: u32,
    members: &Members,
    row: &SchemaRow,
    at: usize,
    root: u32,
) -> Result<Option<Placed>, AllocError>
    requires meant { AllByRecursion IsMeant members.now }
    requires stands { position (has_table row.now.table) members.now ≡ Some at }
    requires root { root ≡ row.now.root }
    ensures { IfOk result (PlacesRow format members.now row.now) }
{
    match members.as_slice().get(at) {
        Some(table) => match real_meaning(table) {
            Some(meaning) => place(alloc, format, row, meaning, at, root),
            None => Ok(None),
        },
        None => Ok(None),
    }
}

// The same of the first table or view of its table's name.
fn place_row(
    alloc: Global,
    format: u32,
    members: &Members,
    row: &SchemaRow,
    root: u32,
) -> Result<Option<Placed>, AllocError>
    requires meant { AllByRecursion IsMeant members.now }
    requires root { root ≡ row.now.root }
    ensures { IfOk result (PlacesRow format members.now row.now) }
{
    match place_for(members, row) {
        Some(at) => place_at(alloc, format, members, row, at, root),
        None => Ok(None),
    }
}

// The index that a row describes, where the row is right.
fn right_index(
    alloc: Global,
    basis: Basis,
    members: &Members,
    at: usize,
    row: &SchemaRow,
) -> Result<Option<Placed>, AllocError>
    requires some { 0 < basis.size }
    requires meant { AllByRecursion IsMeant members.now }
    ensures { IfOk result (λ index. (sizes : Sizes) (base : Paged) → IsBasis basis sizes base → JudgesIndex sizes base basis.format members.now (take at members.now) row.now index) }
{
    match members.own_root(at, basis.size, basis.count, row.root) {
        Some(root) => place_row(alloc, basis.format, members, row, root),
        None => Ok(None),
    }
}

fn right_table(
    alloc: Global,
    basis: Basis,
    members: &Members,
    at: usize,
    row: &SchemaRow,
    meaning: &Option<Result<Table, SqlFault>>,
) -> Result<bool, AllocError>
    requires some { 0 < basis.size }
    requires kind { row.now.kind ≡ SchemaKind.Table }
    requires means { IsFoundMeaning (Some row.now) meaning.now }
    ensures { IfOk result (λ right. (sizes : Sizes) (base : Paged) → IsBasis basis sizes base → IsTrue right ↔ IsRightTable sizes base (rows_in members.now) (rows_in (take at members.now)) row.now) }
{
    match meaning {
        Some(meaning) => is_right_table(alloc, basis, members, at, row, meaning),
        None => Ok(false),
    }
}

// A row that is right, with its place where it is that of an index.
fn right_row(
    alloc: Global,
    basis: Basis,
    members: &Members,
    at: usize,
    row: &SchemaRow,
    meaning: &Option<Result<Table, SqlFault>>,
) -> Result<Option<Option<Placed>>, AllocError>
    requires some { 0 < basis.size }
    requires meant { AllByRecursion IsMeant members.now }
    requires means { IsFoundMeaning (Some row.now) meaning.now }
    ensures { IfOk result (λ right. (sizes : Sizes) (base : Paged) → IsBasis basis sizes base → JudgesRow sizes base basis.format members.now (take at members.now) row.now right) }
{
    match row.kind {
        SchemaKind::Table => match right_table(alloc, basis, members, at, row, meaning) {
            Ok(true) => Ok(Some(None)),
            Ok(false) => Ok(None),
            Err(error) => Err(error),
        },
        SchemaKind::Index => match right_index(alloc, basis, members, at, row) {
            Ok(Some(placed)) => Ok(Some(Some(placed))),
            Ok(None) => Ok(None),
            Err(error) => Err(error),
        },
        SchemaKind::View | SchemaKind::Trigger => {
            if row.root == 0 {
                return Ok(Some(None));
            }
            Ok(None)
        }
    }
}

// That a name is repeated.
fn duplicate(alloc: Global, name: &[u8]) -> RowFault
    ensures { IsDuplicate name.now result }
{
    match Bytes::of(alloc, name) {
        Ok(name) => RowFault::DuplicateName { name },
        Err(error) => RowFault::Memory(error),
    }
}

fn duplicate_row(alloc: Global, row: &SchemaRow) -> RowFault
    ensures { IsDuplicate row.now.name result }
{
    duplicate(alloc, row.name.as_slice())
}

// A member without a fault, with its place where it is an index.
fn check_row(
    alloc: Global,
    basis: Basis,
    members: &Members,
    at: usize,
    this: &Found,
) -> Result<Option<Placed>, RowFault>
    requires some { 0 < basis.size }
    requires meant { AllByRecursion IsMeant members.now }
    requires means { IsMeant this.now }
    ensures { (sizes : Sizes) (base : Paged) → IsBasis basis sizes base → ChecksRow sizes base basis.format members.now (take at members.now) this.now result }
{
    let rowid = this.rowid;
    match &this.row {
        Some(row) => match right_row(alloc, basis, members, at, row, &this.meaning) {
            Ok(Some(placed)) => {
                if members.repeats(at, row) {
                    return Err(duplicate_row(alloc, row));
                }
                Ok(placed)
            }
            Ok(None) => Err(RowFault::SchemaRow { rowid }),
            Err(error) => Err(RowFault::Memory(error)),
        },
        None => Err(RowFault::SchemaRow { rowid }),
    }
}

fn push_placed(all: &mut Vec<Placed>, placed: Option<Placed>) -> Result<(), AllocError>
    ensures { OnOk result (all.new.items ≡ all.old.items ++ option_to_list placed) }
{
    match placed {
        Some(placed) => {
            all.push(placed)?;
            Ok(())
        }
        None => Ok(()),
    }
}

/// The indexes with their places, where no member has a fault, or the fault of the first member that has one.
pub(crate) fn check_all(
    alloc: Global,
    basis: Basis,
    members: &Members,
) -> Result<Vec<Placed>, RowFault>
    requires some { 0 < basis.size }
    requires meant { AllByRecursion IsMeant members.now }
    ensures { (sizes : Sizes) (base : Paged) → IsBasis basis sizes base → ChecksAll sizes base basis.format members.now result }
{
    let mut all = Vec::new(alloc);
    let mut at = 0;
    let mut left = members.as_slice();
    while let [one, rest @ ..] = left {
        match check_row(alloc, basis, members, at, one) {
            Ok(placed) => match push_placed(&mut all, placed) {
                Ok(()) => {
                    at += 1;
                    left = rest;
                }
                Err(error) => return Err(RowFault::Memory(error)),
            },
            Err(fault) => return Err(fault),
        }
    }
    Ok(all)
}
