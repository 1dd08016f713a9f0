// Entries are deleted from index trees.
ghost use Rattle.std.specs.Prelude.{◌≤◌};

use crate::entries::{delete_entry, digits_of, is_listed, length_of, put_hundred};
use crate::stores::{byte, empty_index, ensure, field, order_of};
use key_order::KeyOrder;
use page_store::{PageRead, PlainStore};
use rbu_value::Collation;
use std::alloc::Global;
use std::test::Fail;

// Puts the numbers from 1 to 3000.
fn put_all(alloc: Global, store: &mut PlainStore, order: &KeyOrder) -> Result<bool, Fail> {
    for hundred in 0..30 {
        if !put_hundred(alloc, store, order, hundred * 100)? {
            return Ok(false);
        }
    }
    Ok(true)
}

// Deletes the numbers at the hundred places behind one, in another order that is fixed and shuffled: each number is 1543 more modulo 3001.
fn delete_hundred(
    alloc: Global,
    store: &mut PlainStore,
    order: &KeyOrder,
    first: u32,
) -> Result<bool, Fail>
    requires { first ≤ 2900 }
{
    for at in first + 1..first + 101 {
        let number = at * 1543 % 3001;
        if !delete_entry(alloc, store, order, number, 16777216)? {
            return Ok(false);
        }
    }
    Ok(true)
}

/// Whether the root and its last child are interior pages.
pub fn has_three_levels(store: &mut PlainStore) -> Result<bool, Fail> {
    let last = u32::from(byte(store, 2, 10)?) * 256 + u32::from(byte(store, 2, 11)?);
    Ok(byte(store, 2, 0)? == 2 && byte(store, last, 0)? == 2)
}

#[test]
fn entries_are_deleted_in_a_shuffled_order(rt: HostRuntime) -> Result<(), Fail> {
    let alloc = rt.alloc();
    let order = order_of(alloc, Collation::Binary, false, true)?;
    let mut store = empty_index(alloc)?;
    ensure(put_all(alloc, &mut store, &order)?, "each is new")?;
    ensure(has_three_levels(&mut store)?, "three levels")?;
    for hundred in 0..30 {
        let first = hundred * 100;
        ensure(
            delete_hundred(alloc, &mut store, &order, first)?,
            "each stood there",
        )?;
        ensure(
            is_listed(alloc, &mut store, 459, first + 100, 3000)?,
            "in order",
        )?;
    }
    ensure(byte(&mut store, 2, 0)? == 10, "the root is a leaf")?;
    ensure(
        byte(&mut store, 2, 3)? == 0 && byte(&mut store, 2, 4)? == 0,
        "without cells",
    )?;
    ensure(field(&mut store, 28)? == store.count(), "the size in pages")?;
    ensure(
        u64::from(field(&mut store, 36)?) + 2 == u64::from(store.count()),
        "all other pages are free",
    )
}

#[test]
fn entry_that_is_not_there_is_not_deleted(rt: HostRuntime) -> Result<(), Fail> {
    let alloc = rt.alloc();
    let order = order_of(alloc, Collation::Binary, false, true)?;
    let mut store = empty_index(alloc)?;
    ensure(put_hundred(alloc, &mut store, &order, 0)?, "each is new")?;
    let pages = store.count();
    for at in 101..301 {
        let number = at * 1237 % 3001;
        let deleted = delete_entry(alloc, &mut store, &order, number, 2)?;
        ensure(!deleted, "none stood there")?;
    }
    ensure(store.count() == pages, "no page is taken")?;
    ensure(field(&mut store, 36)? == 0, "none is given back")?;
    ensure(is_listed(alloc, &mut store, 410, 0, 100)?, "the same list")
}

// Whether the digits of a number, and a text behind them, stand in the page of the root.
fn stands_in_root(store: &mut PlainStore, number: u32) -> Result<bool, Fail> {
    let digits = digits_of(number);
    if store.count() < 2 || store.page_size() != 512 {
        return Err(Fail::new("no root"));
    }
    let mut page = [0; 512];
    store.page(2, &mut page)?;
    for at in 0..507 {
        let front = page[at] == digits[0] && page[at + 1] == digits[1];
        let back = page[at + 2] == digits[2] && page[at + 3] == digits[3];
        if front && back && page[at + 4] == b'x' {
            return Ok(true);
        }
    }
    Ok(false)
}

// A number from 1 to 3000 that stands in the root, whose text goes on in overflow pages.
fn long_in_root(store: &mut PlainStore) -> Result<u32, Fail> {
    for number in 1..3001 {
        if length_of(number) > 1000 && stands_in_root(store, number)? {
            return Ok(number);
        }
    }
    Err(Fail::new("none in the root"))
}

#[test]
fn entry_of_an_interior_page_gives_its_chain_back(rt: HostRuntime) -> Result<(), Fail> {
    let alloc = rt.alloc();
    let order = order_of(alloc, Collation::Binary, false, true)?;
    let mut store = empty_index(alloc)?;
    ensure(put_all(alloc, &mut store, &order)?, "each is new")?;
    let pages = store.count();
    let number = long_in_root(&mut store)?;
    let deleted = delete_entry(alloc, &mut store, &order, number, 16777216)?;
    ensure(deleted, "it stood there")?;
    ensure(store.count() == pages, "no page is taken past the end")?;
    ensure(field(&mut store, 36)? >= 2, "its chain is free")?;
    let again = delete_entry(alloc, &mut store, &order, number, 16777216)?;
    ensure(!again, "it stands there no longer")
}
