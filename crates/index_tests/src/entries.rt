// Entries of numbers, and the index at root 2 that has them.
ghost use Rattle.std.specs.Prelude.{◌≤◌};

use crate::stores::{is_whole, record_of};
use index_removal::delete;
use key_order::{KeyOrder, is_entry};
use page_store::{PageRead, PlainStore};
use rbu_value::{Bytes, Value};
use std::alloc::{AllocError, Global};
use std::test::Fail;
use tree_index::{Inserted, put};
use tree_walk::{Cursor, TreeKind};

/// The four digits of a number.
pub fn digits_of(number: u32) -> [u8; 4] {
    [
        b'0' + (number / 1000 % 10) as u8,
        b'0' + (number / 100 % 10) as u8,
        b'0' + (number / 10 % 10) as u8,
        b'0' + (number % 10) as u8,
    ]
}

/// How many bytes stand behind the digits in the text of a number: 1500 at most.
pub fn length_of(number: u32) -> u32 {
    number.wrapping_mul(7919) % 1501
}

/// The text of a number: four digits, and then as many bytes of one kind as make it long.
pub fn text_of(alloc: Global, number: u32, fill: u8) -> Result<Value, AllocError> {
    let digits = digits_of(number);
    let mut bytes = Vec::from_slice(alloc, &digits)?;
    for _ in 0..length_of(number) {
        match bytes.push(fill) {
            Ok(()) => {}
            Err(failed) => return Err(AllocError::from(failed)),
        }
    }
    Ok(Value::Text(Bytes::from_vec(bytes)))
}

/// The entry of a number, with the rowid that it has.
pub fn entry_of(alloc: Global, number: u32) -> Result<Bytes, Fail> {
    record_of(
        alloc,
        text_of(alloc, number, b'x')?,
        Value::Int(i64::from(number) * 3),
    )
}

/// Puts the entry of a number into the index at root 2.
pub fn put_entry(
    alloc: Global,
    store: &mut PlainStore,
    order: &KeyOrder,
    number: u32,
    limit: u32,
) -> Result<Inserted, Fail> {
    let payload = entry_of(alloc, number)?;
    if !is_whole(store) || store.count() < 2 || payload.as_slice().len() > 65536 {
        return Err(Fail::new("no store"));
    }
    if !is_entry(payload.as_slice(), order) {
        return Err(Fail::new("no entry"));
    }
    Ok(put(alloc, store, 2, payload.as_slice(), order, limit)?)
}

/// Deletes the entry of a number from the index at root 2.
pub fn delete_entry(
    alloc: Global,
    store: &mut PlainStore,
    order: &KeyOrder,
    number: u32,
    limit: u32,
) -> Result<bool, Fail> {
    let payload = entry_of(alloc, number)?;
    if !is_whole(store) || store.count() < 2 {
        return Err(Fail::new("no store"));
    }
    if !is_entry(payload.as_slice(), order) {
        return Err(Fail::new("no entry"));
    }
    Ok(delete(alloc, store, 2, payload.as_slice(), order, limit)?)
}

// Whether a cursor stands at the entry of a number.
fn stands_at(
    alloc: Global,
    store: &mut PlainStore,
    cursor: &Cursor,
    number: u32,
) -> Result<bool, Fail> {
    let payload = entry_of(alloc, number)?;
    if !is_whole(store) {
        return Err(Fail::new("no store"));
    }
    match cursor.row(alloc, store)? {
        Some(row) => Ok(row.payload.as_slice() == payload.as_slice()),
        None => Ok(false),
    }
}

// Whether a cursor stands at no entry.
fn is_past(alloc: Global, store: &mut PlainStore, cursor: &Cursor) -> Result<bool, Fail> {
    if !is_whole(store) {
        return Err(Fail::new("no store"));
    }
    Ok(cursor.row(alloc, store)?.is_none())
}

// Moves to the next entry.
fn next(alloc: Global, store: &mut PlainStore, cursor: &mut Cursor) -> Result<bool, Fail> {
    if !is_whole(store) {
        return Err(Fail::new("no store"));
    }
    Ok(cursor.next(alloc, store)?)
}

// Stands at the first entry of the index at root 2.
fn first(alloc: Global, store: &mut PlainStore) -> Result<Cursor, Fail> {
    if !is_whole(store) || store.count() < 2 {
        return Err(Fail::new("no store"));
    }
    Ok(Cursor::first(alloc, store, 2, TreeKind::Index)?)
}

/// Whether the index has the numbers from 1 to 3000, in order, whose product with a factor is, modulo 3001, above one number and at most another, and no others.
pub fn is_listed(
    alloc: Global,
    store: &mut PlainStore,
    factor: u32,
    above: u32,
    last: u32,
) -> Result<bool, Fail>
    requires { factor ≤ 3000 }
{
    let mut cursor = first(alloc, store)?;
    for number in 1..3001 {
        let place = number * factor % 3001;
        if above < place && place <= last {
            if !stands_at(alloc, store, &cursor, number)? {
                return Ok(false);
            }
            next(alloc, store, &mut cursor)?;
        }
    }
    is_past(alloc, store, &cursor)
}

/// Puts the numbers at the hundred places behind one, in an order that is fixed and shuffled: 1237, 2474, 710 and so on, each 1237 more modulo 3001.
pub fn put_hundred(
    alloc: Global,
    store: &mut PlainStore,
    order: &KeyOrder,
    first: u32,
) -> Result<bool, Fail>
    requires { first ≤ 2900 }
{
    for at in first + 1..first + 101 {
        let number = at * 1237 % 3001;
        if put_entry(alloc, store, order, number, 16777216)? != Inserted::New {
            return Ok(false);
        }
    }
    Ok(true)
}
