// Entries are put into index trees.
use crate::entries::{entry_of, is_listed, put_entry, put_hundred};
use crate::stores::{empty_index, ensure, field, is_whole, order_of};
use key_order::is_entry;
use page_store::PageRead;
use rbu_value::Collation;
use std::test::Fail;
use tree_index::{Inserted, TreeFault, put};

#[test]
fn entries_are_put_in_a_shuffled_order(rt: HostRuntime) -> Result<(), Fail> {
    let alloc = rt.alloc();
    let order = order_of(alloc, Collation::Binary, false, true)?;
    let mut store = empty_index(alloc)?;
    for hundred in 0..30 {
        let first = hundred * 100;
        ensure(
            put_hundred(alloc, &mut store, &order, first)?,
            "each is new",
        )?;
        ensure(
            is_listed(alloc, &mut store, 410, 0, first + 100)?,
            "in order",
        )?;
    }
    ensure(field(&mut store, 28)? == store.count(), "the size in pages")?;
    ensure(field(&mut store, 36)? == 0, "no free page")
}

#[test]
fn equal_entry_is_present_and_nothing_changes(rt: HostRuntime) -> Result<(), Fail> {
    let alloc = rt.alloc();
    let order = order_of(alloc, Collation::Binary, false, false)?;
    let mut store = empty_index(alloc)?;
    ensure(put_hundred(alloc, &mut store, &order, 0)?, "each is new")?;
    let pages = store.count();
    for at in 1..101 {
        let number = at * 1237 % 3001;
        let again = put_entry(alloc, &mut store, &order, number, 2)?;
        ensure(again == Inserted::Present, "each is present")?;
    }
    ensure(store.count() == pages, "no page is taken")?;
    ensure(is_listed(alloc, &mut store, 410, 0, 100)?, "the same list")
}

#[test]
fn put_at_the_limit_tells_both_numbers(rt: HostRuntime) -> Result<(), Fail> {
    let alloc = rt.alloc();
    let order = order_of(alloc, Collation::Binary, false, true)?;
    let mut store = empty_index(alloc)?;
    let payload = entry_of(alloc, 1)?;
    if !is_whole(&store) || store.count() < 2 || payload.as_slice().len() > 65536 {
        return Err(Fail::new("no store"));
    }
    if !is_entry(payload.as_slice(), &order) {
        return Err(Fail::new("no entry"));
    }
    let full = match put(alloc, &mut store, 2, payload.as_slice(), &order, 2) {
        Err(TreeFault::TargetFull { pages, limit }) => pages == 2 && limit == 2,
        _ => false,
    };
    ensure(full, "both numbers")
}
