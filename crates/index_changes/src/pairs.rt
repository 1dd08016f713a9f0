// Rows before an update and after it.
use owned_list::OwnedList;
use rbu_value::Value;

/// The row of one rowid before an update and after it: the rowid, and a value for each column of the table. In the place of an INTEGER PRIMARY KEY stands the rowid, whatever value is given there.
#[derive(Drop)]
pub struct OldNew {
    /// None where the row is new.
    pub old: Option<(i64, OwnedList<Value>)>,
    /// None where the row goes.
    pub new: Option<(i64, OwnedList<Value>)>,
}
