// What a delete below a child leaves of its parent.
ghost use Rattle.std.specs.Prelude.{◌≡◌, ◌≤◌, ◌<◌, ◌↔◌, IfOk, List, IsTrue, OnOk, length, max};
ghost use Rattle.std.specs.List.{All};
ghost use Rattle.format_spec.specs.declared.PageKind.TheVariants.{TableInterior};
ghost use Rattle.page_spec.specs.Rooms.{IsOneCell};
ghost use Rattle.page_store.specs.Store.{HasSizes, IsNumber, OwesBy};
ghost use Rattle.tree_level.specs.Changes.{behind};
ghost use Rattle.tree_pages.specs.Takes.{RefusesShort, RisesBy, UsesBy};
ghost use Rattle.tree_pages.specs.Writers.{Becomes, sizes_of};
ghost use Rattle.tree_spec.specs.Faults.{fault_in};
ghost use Rattle.page_spec.specs.Freelists.{Trunk};
ghost use Rattle.tree_spec.specs.Worlds.{IsFree};
ghost use Rattle.tree_walk.specs.Pages.{IsDecoded};
ghost use Rattle.tree_table.specs.Needs.{HasBeside, RefusesBeside, Whenever};
ghost use Rattle.tree_table.specs.Deletes.{Closes, IsChildAt, IsEmptied, IsFit, IsStill, Passes};

use crate::opening::{Opened, Step, open_page};
use crate::taking::Left;
use page_store::PageWrite;
use std::alloc::Global;
use tree_level::change_page;
use tree_pages::TreeFault;
use tree_walk::TreePage;

/// Whether nothing changes in the parent of a page that is left so: it has a cell, and none goes up.
pub fn is_still(left: &Left) -> bool
    ensures { IsTrue result ↔ IsStill left.now }
{
    match left {
        Left::Cells(dividers) => dividers.is_empty(),
        Left::NoCell | Left::OnlyChild(_) => false,
    }
}

/// Whether a page would have no cell any more.
pub fn is_emptied(page: &TreePage, opened: &Opened) -> bool
    ensures { IsTrue result ↔ IsEmptied page.now opened.now }
{
    let kept = page.views.as_slice().len();
    opened.comes.is_empty() && kept == usize::from(opened.change.goes)
}

// Writes an interior page with the cells that it is to have, unless it would have none. Refuses [51] and [50].
fn close_page<S: PageWrite>(
    alloc: Global,
    store: &mut S,
    page: TreePage,
    opened: Opened,
    limit: u32,
) -> Result<Left, TreeFault<S::Fault>>
    requires sizes { HasSizes S.PageRead store.old }
    requires number { IsNumber S.PageRead store.old page.number }
    requires page { IsDecoded page.bytes page.number (S.usable store.old) page }
    requires whole { length page.bytes ≡ S.size store.old }
    requires kind { page.kind ≡ TableInterior }
    requires within { behind opened.change.at opened.change.goes ≤ length page.views }
    requires comes { All (IsOneCell TableInterior (S.usable store.old)) opened.comes.items }
    requires few { length opened.comes.items ≤ 1 }
    ensures left { IfOk result (λ left. Becomes S.PageRead store.old store.new (Closes (sizes_of S.PageRead store.old) page opened left)) }
    ensures fit { IfOk result (IsFit (S.usable store.old)) }
    ensures count { OnOk result (S.count store.old ≤ S.count store.new) }
    ensures most { OnOk result (S.count store.new ≤ max limit (S.count store.old)) }
    ensures rises { OnOk result (RisesBy S.PageRead 1 store.old store.new) }
    ensures uses { OnOk result (Whenever S.PageRead store.old store.new (λ a b. (trunks : List Trunk) → IsFree (sizes_of S.PageRead store.old) a trunks → UsesBy (sizes_of S.PageRead store.old) 1 a b)) }
    ensures refuses { RefusesShort S.PageRead 2 limit store.old store.new result }
    ensures owes { OwesBy S.PageRead fault_in store.old store.new result }
{
    if is_emptied(&page, &opened) {
        return Ok(Left::OnlyChild(opened.change.right));
    }
    let dividers = change_page(alloc, store, page, opened.change, opened.comes, limit)?;
    Ok(Left::Cells(dividers))
}

/// What is left of an interior page with a cell, once a child of it is left so. Refuses [55] with `child`, `kind` or `cells`, [51] and [50].
pub fn pass_on<S: PageWrite>(
    alloc: Global,
    store: &mut S,
    page: TreePage,
    step: Step,
    below: Left,
    limit: u32,
) -> Result<Left, TreeFault<S::Fault>>
    requires sizes { HasSizes S.PageRead store.old }
    requires number { IsNumber S.PageRead store.old page.number }
    requires page { IsDecoded page.bytes page.number (S.usable store.old) page }
    requires whole { length page.bytes ≡ S.size store.old }
    requires kind { page.kind ≡ TableInterior }
    requires some { 0 < length page.views }
    requires at { step.at ≤ length page.views }
    requires child { IsChildAt page step.at step.child }
    requires in_range { IsNumber S.PageRead store.old step.child }
    requires fit { IsFit (S.usable store.old) below }
    ensures left { IfOk result (λ left. Becomes S.PageRead store.old store.new (Passes (sizes_of S.PageRead store.old) page step.child below left)) }
    ensures fit { IfOk result (IsFit (S.usable store.old)) }
    ensures count { OnOk result (S.count store.old ≤ S.count store.new) }
    ensures most { OnOk result (S.count store.new ≤ max limit (S.count store.old)) }
    ensures rises { OnOk result (RisesBy S.PageRead 2 store.old store.new) }
    ensures uses { OnOk result (Whenever S.PageRead store.old store.new (λ a b. (trunks : List Trunk) → HasBeside (sizes_of S.PageRead store.old) page step.at step.child below a trunks → UsesBy (sizes_of S.PageRead store.old) 2 a b)) }
    ensures refuses { RefusesBeside S.PageRead 3 limit page step.at step.child below store.old store.new result }
    ensures owes { OwesBy S.PageRead fault_in store.old store.new result }
{
    if is_still(&below) {
        return Ok(below);
    }
    let opened = open_page(alloc, store, &page, step, below, limit)?;
    close_page(alloc, store, page, opened, limit)
}
