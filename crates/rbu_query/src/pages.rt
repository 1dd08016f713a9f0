// The answer to a question, over a store of pages.
ghost use Rattle.std.specs.Prelude.{◌≡◌, ◌≤◌, IfOk};
ghost use Rattle.page_store.specs.Store.{HasSizes, OwesBy};
ghost use Rattle.tree_spec.specs.Faults.{fault_in};
ghost use Rattle.tree_spec.specs.Worlds.{greatest_count};
ghost use Rattle.tree_walk.specs.Stores.{SeesTree};
ghost use Rattle.dump_spec.specs.Dumps.{IsPagesAnswer, is_schema_name as is_schema_name_of};
ghost use Rattle.dump_spec.specs.SchemaDumps.{IsSchemaAnswer};
ghost use Rattle.dump_spec.specs.TableDumps.{IsTableAnswer};
ghost use Rattle.check_spec.specs.Checks.{IsSoundAnswer};
ghost use Rattle.check_spec.specs.Questions.{IsPagesAnswerTo};
ghost use Rattle.rbu_query.specs.Answers.{IsRefusedBy, IsSchemaOf, IsSplit};
ghost use Rattle.rbu_query.specs.Questions.{asked};

use crate::question::Question;
use crate::schema::{SchemaFault, schema_lines};
use crate::soundness::check_store;
use crate::tables::dump_table;
use page_store::PageRead;
use rbu_value::Bytes;
use refusal::Refusal;
use schema_tokens::same_name;
use std::alloc::{AllocError, Global};
use table_dump::PrintFault;
use tree_rows::table_rows;
use tree_walk::{Row, TreeFault};

// The lines of the rows of a schema table, or the first that is none.
fn lines_of(alloc: Global, rows: &[Row]) -> Result<Result<Bytes, Refusal>, AllocError>
    ensures { IfOk result (IsSchemaOf rows.now) }
{
    match schema_lines(alloc, rows) {
        Ok(text) => Ok(Ok(Bytes::from_vec(text))),
        Err(SchemaFault::SchemaRow { rowid }) => Ok(Err(Refusal::SchemaRow { rowid })),
        Err(SchemaFault::Memory(error)) => Err(error),
    }
}

// A damaged tree as a refusal; or the fault is another.
fn refuse_damage<F>(fault: TreeFault<F>) -> Result<Refusal, TreeFault<F>>
    ensures { IsRefusedBy fault result }
{
    match fault {
        TreeFault::TreeDamaged { page, rule } => Ok(Refusal::TreeDamaged { page, rule }),
        TreeFault::TrunkDamaged { page } => Err(TreeFault::TrunkDamaged { page }),
        TreeFault::TargetFull { pages, limit } => Err(TreeFault::TargetFull { pages, limit }),
        TreeFault::Store(fault) => Err(TreeFault::Store(fault)),
        TreeFault::Memory(error) => Err(TreeFault::Memory(error)),
    }
}

// The answer of the table of the schema.
fn dump_schema<S: PageRead>(
    alloc: Global,
    pages: &mut S,
) -> Result<Result<Bytes, Refusal>, TreeFault<S::Fault>>
    requires sizes { HasSizes S.PageRead pages.old }
    requires some { 1 ≤ S.count pages.old }
    ensures pages { SeesTree S.PageRead pages.old pages.new (λ sizes base. IfOk result (IsSchemaAnswer sizes base)) }
    ensures owes { OwesBy S.PageRead fault_in pages.old pages.new result }
{
    match table_rows(alloc, pages, 1) {
        Ok(rows) => match lines_of(alloc, &rows) {
            Ok(answer) => Ok(answer),
            Err(error) => Err(TreeFault::Memory(error)),
        },
        Err(fault) => match refuse_damage(fault) {
            Ok(refusal) => Ok(Err(refusal)),
            Err(other) => Err(other),
        },
    }
}

// A refusal apart from what ends the call.
fn split_refusal<F>(
    answer: Result<Bytes, PrintFault<F>>,
) -> Result<Result<Bytes, Refusal>, TreeFault<F>>
    ensures { IsSplit answer result }
{
    match answer {
        Ok(text) => Ok(Ok(text)),
        Err(PrintFault::Refused(refusal)) => Ok(Err(refusal)),
        Err(PrintFault::Store(fault)) => Err(TreeFault::Store(fault)),
        Err(PrintFault::Memory(error)) => Err(TreeFault::Memory(error)),
    }
}

// The answer of a table of the catalog.
fn dump_other<S: PageRead>(
    alloc: Global,
    pages: &mut S,
    name: &[u8],
) -> Result<Result<Bytes, Refusal>, TreeFault<S::Fault>>
    requires sizes { HasSizes S.PageRead pages.old }
    requires some { 1 ≤ S.count pages.old }
    ensures pages { SeesTree S.PageRead pages.old pages.new (λ sizes base. IfOk result (IsTableAnswer sizes base name.now)) }
    ensures owes { OwesBy S.PageRead fault_in pages.old pages.new result }
{
    split_refusal(dump_table(alloc, pages, name))
}

// Whether a name is that of the table of the schema.
fn is_schema_name(name: &[u8]) -> bool
    ensures { result ≡ is_schema_name_of name.now }
{
    same_name(name, b"sqlite_schema")
}

// The answer of pages to a dump of a name.
fn dump_pages<S: PageRead>(
    alloc: Global,
    pages: &mut S,
    name: &[u8],
) -> Result<Result<Bytes, Refusal>, TreeFault<S::Fault>>
    requires sizes { HasSizes S.PageRead pages.old }
    requires some { 1 ≤ S.count pages.old }
    ensures pages { SeesTree S.PageRead pages.old pages.new (λ sizes base. IfOk result (IsPagesAnswer name.now sizes base)) }
    ensures owes { OwesBy S.PageRead fault_in pages.old pages.new result }
{
    if is_schema_name(name) {
        dump_schema(alloc, pages)
    } else {
        dump_other(alloc, pages, name)
    }
}

// Whether the database is sound.
fn check_pages<S: PageRead>(
    alloc: Global,
    pages: &mut S,
) -> Result<Result<Bytes, Refusal>, TreeFault<S::Fault>>
    requires sizes { HasSizes S.PageRead pages.old }
    requires some { 1 ≤ S.count pages.old }
    requires few { S.count pages.old ≤ greatest_count }
    ensures pages { SeesTree S.PageRead pages.old pages.new (λ sizes base. IfOk result (IsSoundAnswer sizes base)) }
    ensures owes { OwesBy S.PageRead fault_in pages.old pages.new result }
{
    split_refusal(check_store(alloc, pages))
}

/// The answer of pages, at most 2^24, to a question.
pub(crate) fn answer_pages<S: PageRead>(
    alloc: Global,
    pages: &mut S,
    question: Question<'_>,
) -> Result<Result<Bytes, Refusal>, TreeFault<S::Fault>>
    requires sizes { HasSizes S.PageRead pages.old }
    requires some { 1 ≤ S.count pages.old }
    requires few { S.count pages.old ≤ greatest_count }
    ensures pages { SeesTree S.PageRead pages.old pages.new (λ sizes base. IfOk result (IsPagesAnswerTo (asked question.entry) sizes base)) }
    ensures owes { OwesBy S.PageRead fault_in pages.old pages.new result }
{
    match question {
        Question::Dump { name } => dump_pages(alloc, pages, name),
        Question::Check => check_pages(alloc, pages),
    }
}
