// The trees of tables and indexes, sound and damaged.

use crate::indexes::entries_of;
use crate::stores::{flagged, is_told, is_whole, page_of, put_page, store_of};
use db_check::{CheckFault, CheckedTree, Members, page_flags, pass_tree};
use owned_list::OwnedList;
use page_store::{PageRead, PlainStore};
use rbu_value::{Collation, Value};
use refusal::Rule;
use std::alloc::{AllocError, Global};
use std::test::Fail;
use tree_walk::TreeKind;

// A leaf of a table with two rows, each with its rowid as the value behind it.
fn leaf(first: u8, second: u8) -> [u8; 512] {
    page_of(
        b"\x0d\x00\x00\x00\x02\x01\xf4\x00\x01\xf4\x01\xfa",
        &[4, first, 3, 0, 1, first, 4, second, 3, 0, 1, second],
    )
}

// An interior page of a table with one cell.
fn interior(child: u8, rowid: u8, right: u8) -> [u8; 512] {
    page_of(
        &[5, 0, 0, 0, 1, 1, 251, 0, 0, 0, 0, right, 1, 251],
        &[0, 0, 0, child, rowid],
    )
}

// A table at root 2 with the leaves 3, 4 and 5. Page 6 is an interior page above 7 and 5.
fn table(alloc: Global) -> Result<PlainStore, Fail> {
    let mut store = store_of(alloc, 7)?;
    let root = page_of(
        b"\x05\x00\x00\x00\x02\x01\xf6\x00\x00\x00\x00\x05\x01\xf6\x01\xfb",
        b"\x00\x00\x00\x03\x14\x00\x00\x00\x04\x28",
    );
    put_page(&mut store, 2, &root)?;
    put_page(&mut store, 3, &leaf(10, 20))?;
    put_page(&mut store, 4, &leaf(30, 40))?;
    put_page(&mut store, 5, &leaf(50, 60))?;
    put_page(&mut store, 6, &interior(7, 50, 5))?;
    put_page(&mut store, 7, &leaf(45, 50))?;
    Ok(store)
}

// An index at root 2 with the leaves 3 and 4. Its entries are a number, and a rowid: 1 to 5, of which 3 stands in the root.
fn index(alloc: Global) -> Result<PlainStore, Fail> {
    let mut store = store_of(alloc, 4)?;
    let root = page_of(
        b"\x02\x00\x00\x00\x01\x01\xf6\x00\x00\x00\x00\x04\x01\xf6",
        b"\x00\x00\x00\x03\x05\x03\x01\x01\x03\x03",
    );
    put_page(&mut store, 2, &root)?;
    put_page(&mut store, 3, &index_leaf(1, 2))?;
    put_page(&mut store, 4, &index_leaf(4, 5))?;
    Ok(store)
}

fn index_leaf(first: u8, second: u8) -> [u8; 512] {
    page_of(
        b"\x0a\x00\x00\x00\x02\x01\xf4\x00\x01\xf4\x01\xfa",
        &[5, 3, 1, 1, first, first, 5, 3, 1, 1, second, second],
    )
}

fn change(store: &mut PlainStore, number: u32, at: usize, byte: u8) -> Result<(), Fail> {
    if number < 1 || number > store.count() || store.page_size() != 512 || at >= 512 {
        return Err(Fail::new("no such page"));
    }
    let mut page = [0; 512];
    store.page(number, &mut page)?;
    page[at] = byte;
    put_page(store, number, &page)
}

fn tree_of(
    alloc: Global,
    kind: TreeKind,
    members: Members,
    expected: &[OwnedList<Value>],
) -> Result<CheckedTree<'_>, AllocError> {
    let mut columns = Vec::new(alloc);
    if members == Members::Entries {
        columns.push((Collation::Binary, false))?;
    }
    Ok(CheckedTree {
        kind,
        members,
        columns: OwnedList::from_vec(columns),
        unique: true,
        expected,
    })
}

// Goes through the tree at root 2, and answers how many entries agree with those that are expected.
fn pass(
    alloc: Global,
    store: &mut PlainStore,
    tree: &CheckedTree<'_>,
    flags: &mut [bool],
) -> Result<usize, CheckFault<AllocError>> {
    if !is_whole(store) || store.count() < 2 || flags.len() != store.count() as usize + 1 {
        return Err(CheckFault::PageLost { page: 0 });
    }
    match pass_tree(alloc, store, tree, 2, flags) {
        Ok(compared) => Ok(compared.agreed),
        Err(fault) => Err(fault),
    }
}

// Whether the tree is answered so; where it is sound, by how many pages are flagged, and how many entries agree.
fn answers(
    alloc: Global,
    store: &mut PlainStore,
    tree: &CheckedTree<'_>,
    row: &Row,
    entries: usize,
) -> Result<bool, Fail> {
    let mut flags = page_flags(alloc, store.count())?;
    let answer = pass(alloc, store, tree, flags.as_mut_slice());
    Ok(match answer {
        Ok(found) => row.3 == 0 && row.4 == flagged(flags.as_slice()) && found == entries,
        Err(fault) => is_told(&fault, row.3, row.4, row.5),
    })
}

// A byte of a page that is another, and what is answered then: the number of a refusal, or 0, its page, or how many pages are flagged, and the rule that is broken.
type Row = (u32, usize, u8, u32, u32, Option<Rule>);

// As it is; a child whose number is none, one that is found twice, and the root as its own child; a page of an index, of no kind, and with cells that overlap; leaves at two depths; a leaf and a root without a cell; rowids that fall, and one past its bound; a record that is none, and one with a floating point value.
const TABLES: &[Row] = &[
    (1, 0, 1, 0, 4, None),
    (2, 510, 9, 74, 2, Some(Rule::Child)),
    (2, 510, 3, 70, 3, None),
    (2, 11, 2, 70, 2, None),
    (4, 0, 10, 74, 4, Some(Rule::Kind)),
    (4, 0, 7, 74, 4, Some(Rule::Kind)),
    (4, 9, 250, 74, 4, Some(Rule::Cells)),
    (2, 11, 6, 74, 7, Some(Rule::Depth)),
    (5, 4, 0, 74, 5, Some(Rule::Empty)),
    (2, 4, 0, 74, 2, Some(Rule::Empty)),
    (4, 507, 30, 72, 4, None),
    (4, 507, 41, 72, 4, None),
    (3, 504, 11, 74, 3, Some(Rule::Record)),
    (3, 504, 7, 0, 4, None),
];

#[test]
fn tables_are_gone_through(rt: HostRuntime) -> Result<(), Fail> {
    let alloc = rt.alloc();
    let tree = tree_of(alloc, TreeKind::Table, Members::Rows, &[])?;
    for row in TABLES {
        let mut store = table(alloc)?;
        change(&mut store, row.0, row.1, row.2)?;
        if !answers(alloc, &mut store, &tree, row, 0)? {
            return Err(Fail::new("a table"));
        }
    }
    Ok(())
}

// As it is; an entry that falls, in a leaf and behind the root; an entry whose rowid is no integer; one that is no record.
const INDEXES: &[Row] = &[
    (1, 0, 1, 0, 3, None),
    (3, 510, 0, 72, 3, None),
    (4, 504, 2, 72, 4, None),
    (4, 503, 0, 74, 4, Some(Rule::Record)),
    (2, 508, 9, 74, 2, Some(Rule::Record)),
];

#[test]
fn indexes_are_gone_through(rt: HostRuntime) -> Result<(), Fail> {
    let alloc = rt.alloc();
    let expected = entries_of(alloc, &[(1, 1), (2, 2), (3, 3), (4, 4), (5, 5)])?;
    let tree = tree_of(
        alloc,
        TreeKind::Index,
        Members::Entries,
        expected.as_slice(),
    )?;
    for row in INDEXES {
        let mut store = index(alloc)?;
        change(&mut store, row.0, row.1, row.2)?;
        if !answers(alloc, &mut store, &tree, row, 5)? {
            return Err(Fail::new("an index"));
        }
    }
    Ok(())
}
