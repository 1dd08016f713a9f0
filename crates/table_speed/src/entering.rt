// Fills an index in memory.
use crate::filling::{Order, empty_tree, is_whole, rowid_at};
use key_order::{KeyOrder, is_entry};
use owned_list::OwnedList;
use page_store::{PageRead, PlainStore};
use rbu_value::{Collation, Value};
use record_codec::write_record;
use std::alloc::{AllocError, Global};
use tree_index::{TreeFault, put};

// The order of entries of one integer, and of the rowid behind it.
fn order_of(alloc: Global) -> Result<KeyOrder, AllocError> {
    let columns = vec![in alloc; (Collation::Binary, false); 1]?;
    Ok(KeyOrder {
        columns: OwnedList::from_vec(columns),
        rowid_last: true,
    })
}

// Puts the entry of a key and a rowid.
fn enter(
    alloc: Global,
    store: &mut PlainStore,
    key: i64,
    rowid: i64,
    order: &KeyOrder,
) -> Result<(), TreeFault<AllocError>> {
    let entry = write_record(alloc, &[Value::Int(key), Value::Int(rowid)], 4)?;
    let payload = entry.as_slice();
    if !is_whole(store) || payload.len() > 65536 || !is_entry(payload, order) {
        return Err(TreeFault::TrunkDamaged { page: 0 });
    }
    put(alloc, store, 2, payload, order, 16777216)?;
    Ok(())
}

/// Puts so many entries of an integer and a rowid into an empty index, and answers how many pages there are then.
pub fn entered(alloc: Global, order: Order, entries: u32) -> Result<u32, TreeFault<AllocError>> {
    let mut store = empty_tree(alloc, 10)?;
    let keys = order_of(alloc)?;
    for at in 0..entries {
        enter(alloc, &mut store, rowid_at(order, at), i64::from(at), &keys)?;
    }
    Ok(store.count())
}
