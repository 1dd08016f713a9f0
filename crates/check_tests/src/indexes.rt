// Entries of an index beside those of the rows of its table.

use db_check::{CheckedTree, Comparison, Members, compare_entry, first_that_disagrees};
use owned_list::OwnedList;
use rbu_value::{Collation, Value};
use std::alloc::{AllocError, Global};
use std::test::Fail;
use tree_walk::TreeKind;

// An entry of one column, in which -1 stands for NULL, and its rowid.
fn entry_of(alloc: Global, entry: (i64, i64)) -> Result<OwnedList<Value>, AllocError> {
    let mut values = Vec::new(alloc);
    let column = if entry.0 == -1 {
        Value::Null
    } else {
        Value::Int(entry.0)
    };
    values.push(column)?;
    values.push(Value::Int(entry.1))?;
    Ok(OwnedList::from_vec(values))
}

pub fn entries_of(
    alloc: Global,
    entries: &[(i64, i64)],
) -> Result<Vec<OwnedList<Value>>, AllocError> {
    let mut list = Vec::new(alloc);
    for entry in entries {
        list.push(entry_of(alloc, *entry)?)?;
    }
    Ok(list)
}

// The entries of an index, those of the rows of its table, whether it is unique, and the rowid of the first that disagrees.
type Row = (
    &'static [(i64, i64)],
    &'static [(i64, i64)],
    bool,
    Option<i64>,
);

const T: &[(i64, i64)] = &[(10, 1), (20, 2), (30, 3)];

const TWICE: &[(i64, i64)] = &[(10, 1), (20, 2), (20, 4), (30, 3)];

const NULLS: &[(i64, i64)] = &[(-1, 1), (-1, 2), (30, 3)];

const ROWS: &[Row] = &[
    (T, T, true, None),
    (&[(10, 1), (21, 2), (30, 3)], T, true, Some(2)),
    (&[(10, 1), (20, 2)], T, true, Some(3)),
    (&[(10, 1), (20, 2), (30, 3), (40, 4)], T, true, Some(4)),
    (&[(10, 1), (15, 9), (20, 2), (30, 3)], T, true, Some(9)),
    (&[], T, true, Some(1)),
    (&[], &[], true, None),
    (TWICE, TWICE, true, Some(4)),
    (TWICE, TWICE, false, None),
    (NULLS, NULLS, true, None),
];

// What is told of an index of one column.
fn told(alloc: Global, row: &Row) -> Result<Option<i64>, AllocError> {
    let mut columns = Vec::new(alloc);
    columns.push((Collation::Binary, false))?;
    let expected = entries_of(alloc, row.1)?;
    let tree = CheckedTree {
        kind: TreeKind::Index,
        members: Members::Entries,
        columns: OwnedList::from_vec(columns),
        unique: row.2,
        expected: expected.as_slice(),
    };
    let mut compared = Comparison::new();
    for entry in row.0 {
        compare_entry(&tree, &mut compared, entry_of(alloc, *entry)?);
    }
    Ok(first_that_disagrees(&tree, &compared))
}

#[test]
fn indexes_are_compared(rt: HostRuntime) -> Result<(), Fail> {
    let alloc = rt.alloc();
    for row in ROWS {
        if told(alloc, row)? != row.3 {
            return Err(Fail::new("an index"));
        }
    }
    Ok(())
}
