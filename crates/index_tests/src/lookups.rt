// Entries that agree in the columns are looked for in index trees.
use crate::entries::{put_hundred, text_of};
use crate::entry_deletes::has_three_levels;
use crate::stores::{empty_index, ensure, is_whole, order_of, record_of, text};
use index_lookup::has_alike;
use key_order::{KeyOrder, is_entry};
use page_store::{PageRead, PlainStore};
use rbu_value::{Collation, Value};
use std::alloc::Global;
use std::test::Fail;
use tree_index::{Inserted, put};

// Puts the entry of a value and a rowid into the index at root 2.
fn put_value(
    alloc: Global,
    store: &mut PlainStore,
    order: &KeyOrder,
    value: Value,
    rowid: i64,
) -> Result<bool, Fail> {
    let payload = record_of(alloc, value, Value::Int(rowid))?;
    if !is_whole(store) || store.count() < 2 || payload.as_slice().len() > 65536 {
        return Err(Fail::new("no store"));
    }
    if !is_entry(payload.as_slice(), order) {
        return Err(Fail::new("no entry"));
    }
    Ok(put(alloc, store, 2, payload.as_slice(), order, 16777216)? == Inserted::New)
}

// Whether the index at root 2 holds an entry that agrees with that of a value and the rowid 6.
fn holds(
    alloc: Global,
    store: &mut PlainStore,
    columns: &KeyOrder,
    value: Value,
) -> Result<bool, Fail> {
    let payload = record_of(alloc, value, Value::Int(6))?;
    if !is_whole(store) || store.count() < 2 {
        return Err(Fail::new("no store"));
    }
    if !is_entry(payload.as_slice(), columns) {
        return Err(Fail::new("no entry"));
    }
    Ok(has_alike(alloc, store, 2, payload.as_slice(), columns)?)
}

// Puts NULL twice, 77 and a text.
fn put_few(alloc: Global, store: &mut PlainStore, order: &KeyOrder) -> Result<bool, Fail> {
    Ok(
        put_value(alloc, store, order, Value::Null, 7)?
            && put_value(alloc, store, order, Value::Null, 8)?
            && put_value(alloc, store, order, Value::Int(77), 5)?
            && put_value(alloc, store, order, text(alloc, b"Key")?, 9)?,
    )
}

// Looks for these, and for others.
fn look_for_few(alloc: Global, store: &mut PlainStore, columns: &KeyOrder) -> Result<(), Fail> {
    ensure(
        !holds(alloc, store, columns, Value::Null)?,
        "NULL agrees with none",
    )?;
    ensure(
        holds(alloc, store, columns, Value::Int(77))?,
        "77 at another rowid",
    )?;
    ensure(!holds(alloc, store, columns, Value::Int(76))?, "no 76")?;
    ensure(!holds(alloc, store, columns, Value::Int(78))?, "no 78")?;
    ensure(
        holds(alloc, store, columns, text(alloc, b"kEY")?)?,
        "the text without case",
    )?;
    ensure(
        !holds(alloc, store, columns, text(alloc, b"keys")?)?,
        "no longer text",
    )
}

#[test]
fn entries_agree_by_their_columns_in_a_leaf(rt: HostRuntime) -> Result<(), Fail> {
    let alloc = rt.alloc();
    let order = order_of(alloc, Collation::NoCase, false, true)?;
    let columns = order_of(alloc, Collation::NoCase, false, false)?;
    let mut store = empty_index(alloc)?;
    ensure(
        !holds(alloc, &mut store, &columns, Value::Int(77))?,
        "none at first",
    )?;
    ensure(put_few(alloc, &mut store, &order)?, "each is new")?;
    look_for_few(alloc, &mut store, &columns)
}

#[test]
fn entries_agree_by_their_columns_on_three_levels(rt: HostRuntime) -> Result<(), Fail> {
    let alloc = rt.alloc();
    let order = order_of(alloc, Collation::NoCase, false, true)?;
    let columns = order_of(alloc, Collation::NoCase, false, false)?;
    let mut store = empty_index(alloc)?;
    ensure(put_hundred(alloc, &mut store, &order, 0)?, "each is new")?;
    ensure(put_few(alloc, &mut store, &order)?, "and these")?;
    ensure(has_three_levels(&mut store)?, "three levels")?;
    let pages = store.count();
    look_for_few(alloc, &mut store, &columns)?;
    for at in 1..201 {
        let value = text_of(alloc, at * 1237 % 3001, b'X')?;
        let stands = holds(alloc, &mut store, &columns, value)?;
        ensure(stands == (at <= 100), "the hundred and no others")?;
    }
    ensure(store.count() == pages, "no page is taken")
}
