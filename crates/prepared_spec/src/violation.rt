// Why a transaction of prepared rows does not come about.
use owned_list::OwnedList;
use rbu_value::{Bytes, Value};

/// A constraint of the target that the transaction of all prepared rows breaks.
#[derive(Drop)]
pub enum Violation {
    /// A row would have NULL in a column declared NOT NULL. The table and the column are the target's, the rowid that of the prepared row.
    NotNull {
        table: Bytes,
        data_rowid: i64,
        column: Bytes,
    },
    /// A row is inserted whose key is there. The rowid is that of the prepared row.
    KeyPresent {
        table: Bytes,
        data_rowid: i64,
    },
    /// Two entries of a unique index would agree in their columns. The values of the entry that is at fault, the rowid last.
    NotUnique {
        index: Bytes,
        key: OwnedList<Value>,
    },
    /// A new row would have a rowid over 9223372036854775807.
    RowidsSpent {
        table: Bytes,
    },
}

/// A change of one entry of an index. The values of the indexed columns, and then the rowid.
#[derive(Drop)]
pub enum Change {
    Remove(OwnedList<Value>),
    Add(OwnedList<Value>),
}
