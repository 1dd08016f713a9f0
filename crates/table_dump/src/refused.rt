// What a name, a text and a record are refused as.
ghost use Rattle.std.specs.Prelude.{◌≡◌};
ghost use Rattle.refusal.specs.declared.Refusal.TheVariants.{NoTarget};
ghost use Rattle.dump_spec.specs.Refusals.{IsTextRefusal, cause_number as cause_number_of, clause_word as clause_word_of};
ghost use Rattle.table_dump.specs.Answers.{RefusesRow};
ghost use Rattle.table_dump.specs.Rows.{IsRecordRefusal};

use crate::fault::RowFault;
use prepared_spec::RecordCause;
use rbu_value::Bytes;
use refusal::Refusal;
use row_values::Unread;
use schema_spec::{Clause, SqlFault};
use std::alloc::Global;
use tree_walk::Row;

// The word that is printed for a clause.
fn clause_word(clause: Clause) -> &'static [u8]
    ensures { result.now ≡ clause_word_of clause }
{
    match clause {
        Clause::Without => b"WITHOUT",
        Clause::Strict => b"STRICT",
        Clause::Generated => b"GENERATED",
        Clause::As => b"AS",
        Clause::On => b"ON",
        Clause::Desc => b"DESC",
        Clause::Collate => b"COLLATE",
        Clause::Real => b"REAL",
        Clause::Unique => b"UNIQUE",
        Clause::Primary => b"PRIMARY",
        Clause::Where => b"WHERE",
        Clause::Expression => b"EXPRESSION",
        Clause::Virtual => b"VIRTUAL",
        Clause::View => b"VIEW",
    }
}

// The number by which a cause is printed.
fn cause_number(cause: RecordCause) -> u64
    ensures { result ≡ cause_number_of cause }
{
    match cause {
        RecordCause::SizeOverLimit => 11,
        RecordCause::ShortHeader => 20,
        RecordCause::ReservedType => 21,
        RecordCause::RealValue => 22,
        RecordCause::BodyLength => 23,
        RecordCause::ShortRecord => 25,
    }
}

// The refusal of a name that no table has, unless memory is wanting.
pub(crate) fn refuse_name(alloc: Global, name: &[u8]) -> RowFault
    ensures { RefusesRow (λ refusal. refusal ≡ NoTarget name.now) result }
{
    match Bytes::of(alloc, name) {
        Ok(name) => RowFault::Refused(Refusal::NoTarget { name }),
        Err(error) => RowFault::Memory(error),
    }
}

// The refusal of a text, under the name of its table, unless memory is wanting.
pub(crate) fn refuse_text(alloc: Global, name: &[u8], fault: SqlFault) -> RowFault
    ensures { RefusesRow (IsTextRefusal name.now fault) result }
{
    let table = match Bytes::of(alloc, name) {
        Ok(table) => table,
        Err(error) => return RowFault::Memory(error),
    };
    match fault {
        SqlFault::SqlSyntax { offset } => {
            RowFault::Refused(Refusal::SqlSyntax { table, offset })
        }
        SqlFault::OutsideProfile { clause } => match Bytes::of(alloc, clause_word(clause)) {
            Ok(clause) => RowFault::Refused(Refusal::OutsideProfile { table, clause }),
            Err(error) => RowFault::Memory(error),
        },
        SqlFault::Memory(error) => RowFault::Memory(error),
    }
}

// The refusal of a record that is no row of its table, unless memory is wanting.
pub(crate) fn refuse_record(alloc: Global, name: &[u8], row: &Row, unread: Unread) -> RowFault
    ensures { RefusesRow (IsRecordRefusal name.now row.now.rowid unread) result }
{
    match unread {
        Unread::Memory(error) => RowFault::Memory(error),
        Unread::Cause(cause) => match Bytes::of(alloc, name) {
            Ok(table) => RowFault::Refused(Refusal::TargetRecord {
                table,
                rowid: row.rowid,
                cause: cause_number(cause),
            }),
            Err(error) => RowFault::Memory(error),
        },
    }
}
