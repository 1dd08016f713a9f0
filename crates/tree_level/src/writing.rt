// Writes pages of trees.
ghost use Rattle.std.specs.Prelude.{◌≡◌, ◌≤◌, [], ◌++◌, IfErr, OnOk, length, take, drop};
ghost use Rattle.std.specs.List.{All};
ghost use Rattle.page_spec.specs.Rooms.{IsOneCell, free_bytes, needs as bytes_needed};
ghost use Rattle.page_store.specs.Store.{HasSizes, Looks, OwesBy};
ghost use Rattle.tree_level.specs.Levels.{WritesNode, WritesPage, with_header};
ghost use Rattle.tree_spec.specs.Faults.{IsOther, fault_in};
ghost use Rattle.tree_pages.specs.Writers.{Becomes, sizes_of};

use cell_codec::PageKind;
use page_layout::rebuild;
use page_store::{PageWrite, page_buffer};
use rbu_value::Bytes;
use std::alloc::Global;
use tree_pages::TreeFault;

/// A page of a tree, by its number, its kind and its right child. That of a leaf is not read.
#[derive(Clone, Copy)]
pub struct Node {
    pub number: u32,
    pub kind: PageKind,
    pub right: u32,
}

// Writes a database header over that of a page.
fn put_header(page: &mut [u8], now: &[u8])
    requires page { 100 ≤ length page.old }
    requires now { 100 ≤ length now.now }
    ensures { page.new ≡ take 100 now.now ++ drop 100 page.old }
{
    page[..100].copy_from_slice(&now[..100]);
}

// Gives page 1 the database header that the store has now.
fn refresh_header<S: PageWrite>(
    alloc: Global,
    store: &mut S,
    page: &mut [u8],
) -> Result<(), TreeFault<S::Fault>>
    requires sizes { HasSizes S.PageRead store.old }
    requires some { 1 ≤ S.count store.old }
    requires whole { length page.old ≡ S.size store.old }
    ensures pages { Looks S.PageRead store.old store.new result (λ _ m. page.new ≡ take 100 (m 1) ++ drop 100 page.old) }
    ensures other { IfErr result IsOther }
    ensures owes { OwesBy S.PageRead fault_in store.old store.new result }
{
    let mut buffer = page_buffer(alloc, store.page_size())?;
    let now = buffer.as_mut_slice();
    if let Err(fault) = store.page(1, now) {
        return Err(TreeFault::Store(fault));
    }
    put_header(page, now);
    Ok(())
}

// Gives a page the database header that the store has now, where it is page 1.
fn refresh<S: PageWrite>(
    alloc: Global,
    store: &mut S,
    number: u32,
    page: &mut [u8],
) -> Result<(), TreeFault<S::Fault>>
    requires sizes { HasSizes S.PageRead store.old }
    requires some { 1 ≤ S.count store.old }
    requires whole { length page.old ≡ S.size store.old }
    ensures pages { Looks S.PageRead store.old store.new result (λ _ m. page.new ≡ with_header number (m number) page.old) }
    ensures other { IfErr result IsOther }
    ensures owes { OwesBy S.PageRead fault_in store.old store.new result }
{
    if number != 1 {
        return Ok(());
    }
    refresh_header(alloc, store, page)
}

/// Writes a page of a tree. In front of page 1 the database header stays as the store has it.
pub fn write_page<S: PageWrite>(
    alloc: Global,
    store: &mut S,
    number: u32,
    page: &mut [u8],
) -> Result<(), TreeFault<S::Fault>>
    requires sizes { HasSizes S.PageRead store.old }
    requires first { 1 ≤ number }
    requires within { number ≤ S.count store.old }
    requires whole { length page.old ≡ S.size store.old }
    ensures written { OnOk result (Becomes S.PageRead store.old store.new (WritesPage number page.old)) }
    ensures count { S.count store.new ≡ S.count store.old }
    ensures other { IfErr result IsOther }
    ensures owes { OwesBy S.PageRead fault_in store.old store.new result }
{
    refresh(alloc, store, number, page)?;
    match store.set_page(number, page) {
        Ok(()) => Ok(()),
        Err(fault) => Err(TreeFault::Store(fault)),
    }
}

/// Writes a page of a tree with these cells, through room for a page. In front of page 1 the database header stays.
pub fn write_node<S: PageWrite>(
    alloc: Global,
    store: &mut S,
    node: Node,
    cells: &[Bytes],
    page: &mut [u8],
) -> Result<(), TreeFault<S::Fault>>
    requires sizes { HasSizes S.PageRead store.old }
    requires first { 1 ≤ node.number }
    requires within { node.number ≤ S.count store.old }
    requires whole { length page.old ≡ S.size store.old }
    requires cells { All (IsOneCell node.kind (S.usable store.old)) cells.now }
    requires room { bytes_needed cells.now ≤ free_bytes node.number (S.usable store.old) node.kind [] }
    ensures written { OnOk result (Becomes S.PageRead store.old store.new (WritesNode (sizes_of S.PageRead store.old) node cells.now)) }
    ensures count { S.count store.new ≡ S.count store.old }
    ensures other { IfErr result IsOther }
    ensures owes { OwesBy S.PageRead fault_in store.old store.new result }
{
    match rebuild(
        page,
        node.number,
        store.usable(),
        node.kind,
        cells,
        node.right,
    ) {
        Ok(()) => write_page(alloc, store, node.number, page),
        Err(_) => unreachable!(),
    }
}
