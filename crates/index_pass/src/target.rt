// The index that a pass goes over.
ghost use Rattle.std.specs.Prelude.{◌≡◌, IfOk};
ghost use Rattle.database_spec.specs.Keys.{order_of};
ghost use Rattle.index_pass.specs.Targets.{IsTargetOf};

use key_order::KeyOrder;
use owned_list::OwnedList;
use rbu_value::{Bytes, Collation};
use schema_spec::Index;
use std::alloc::{AllocError, Global};

/// The index that a pass goes over.
#[derive(Drop)]
pub struct Target {
    /// The name of its table, by which refusals name it.
    pub table: Bytes,
    /// The name by which constraints name it.
    pub name: Bytes,
    /// The root of its tree.
    pub root: u32,
    pub unique: bool,
    /// The order of its entries, by its columns and then by rowid.
    pub order: KeyOrder,
    /// The order by its columns alone, in which entries agree.
    pub alike: KeyOrder,
}

// The collation of each column of an index, and whether it descends.
fn columns_of(alloc: Global, index: &Index) -> Result<OwnedList<(Collation, bool)>, AllocError>
    ensures { IfOk result (λ columns. columns ≡ order_of index.now) }
{
    let mut columns = Vec::new(alloc);
    let mut left = index.columns.as_slice();
    while let [column, rest @ ..] = left {
        columns.push((column.1, column.2))?;
        left = rest;
    }
    Ok(OwnedList::from_vec(columns))
}

impl Target {
    /// The index, of a table with this name, whose tree is that of a root. Fails where memory runs out.
    pub fn of(alloc: Global, table: &[u8], index: &Index, root: u32) -> Result<Target, AllocError>
        ensures { IfOk result (IsTargetOf table.now index.now root) }
    {
        let order = KeyOrder {
            columns: columns_of(alloc, index)?,
            rowid_last: true,
        };
        let alike = KeyOrder {
            columns: columns_of(alloc, index)?,
            rowid_last: false,
        };
        Ok(Target {
            table: Bytes::of(alloc, table)?,
            name: Bytes::of(alloc, index.name.as_slice())?,
            root,
            unique: index.unique,
            order,
            alike,
        })
    }
}
