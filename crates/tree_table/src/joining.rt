// Joins an interior page that has no cell any more with a neighbour.
ghost use Rattle.std.specs.Prelude.{◌≡◌, ◌≤◌, ◌<◌, IfErr, IfOk, OnOk, Some, length, max, slice_get};
ghost use Rattle.std.specs.List.{All};
ghost use Rattle.format_spec.specs.declared.PageKind.TheVariants.{TableInterior};
ghost use Rattle.page_spec.specs.Pages.{Pages};
ghost use Rattle.page_spec.specs.Rooms.{IsOneCell};
ghost use Rattle.page_store.specs.Store.{HasSizes, IsNumber, OwesBy};
ghost use Rattle.tree_level.specs.Changes.{behind};
ghost use Rattle.tree_pages.specs.Takes.{RisesBy};
ghost use Rattle.tree_pages.specs.Writers.{Becomes, paged, sizes_of};
ghost use Rattle.tree_spec.specs.Faults.{fault_in};
ghost use Rattle.tree_walk.specs.Pages.{IsDecoded};
ghost use Rattle.tree_walk.specs.Places.{child_or};
ghost use Rattle.tree_table.specs.Needs.{IsOtherInside, OpensOne, RefusesBeside};
ghost use Rattle.tree_table.specs.Deletes.{IsChildAt, IsKey, OpensOver};
ghost use Rattle.tree_table.specs.declared.taking.Left.TheVariants.{OnlyChild};

use crate::descending::{child_number, only};
use crate::opening::{Opened, Step};
use cell_codec::PageKind;
use page_store::{PageRead, PageWrite};
use rbu_value::Bytes;
use refusal::Rule;
use std::alloc::{AllocError, Global};
use tree_level::{Change, change_page, key_cell, settle_elsewhere};
use tree_pages::{TreeFault, give_page};
use tree_spec::damaged;
use tree_walk::{TreePage, read_page};

// Reads the interior page that a page names at an index. Refuses [55] with `child`, `kind` or `cells`.
fn read_neighbour<S: PageRead>(
    alloc: Global,
    store: &mut S,
    page: &TreePage,
    at: usize,
) -> Result<TreePage, TreeFault<S::Fault>>
    requires sizes { HasSizes S.PageRead store.old }
    ensures child { IfOk result (λ beside. IsChildAt page.now at beside.number) }
    ensures in_range { IfOk result (λ beside. IsNumber S.PageRead store.old beside.number) }
    ensures read { IfOk result (λ beside. IsDecoded beside.bytes beside.number (S.usable store.old) beside) }
    ensures there { IfOk result (λ beside. (m : Pages) → S.pages store.old ≡ Some m → m beside.number ≡ beside.bytes) }
    ensures kind { IfOk result (λ beside. beside.kind ≡ TableInterior) }
    ensures whole { IfOk result (λ beside. length beside.bytes ≡ S.size store.old) }
    ensures same { S.pages store.new ≡ S.pages store.old }
    ensures count { S.count store.new ≡ S.count store.old }
    ensures named { IfOk result (λ beside. beside.number ≡ child_or page.now.right (slice_get page.now.views at)) }
    ensures refuses { (m : Pages) → S.pages store.old ≡ Some m → IfErr result (IsOtherInside (sizes_of S.PageRead store.old) (child_or page.now.right (slice_get page.now.views at)) (paged S.PageRead store.old m)) }
    ensures owes { OwesBy S.PageRead fault_in store.old store.new result }
{
    let number = child_number(store, page, at)?;
    let beside = read_page(alloc, store, number)?;
    match beside.kind {
        PageKind::TableInterior => Ok(beside),
        _ => Err(damaged(number, Rule::Kind)),
    }
}

// The cell that comes down between two pages: it has the rowid of their parent's cell, and a child.
fn middle_cell(
    alloc: Global,
    page: &TreePage,
    at: usize,
    child: u32,
) -> Result<Vec<Bytes>, AllocError>
    requires { at < length page.now.views }
    ensures { IfOk result (λ cells. IsKey page.now at child cells.items) }
{
    let cell = key_cell(alloc, child, page.rowid_at(at))?;
    only(alloc, cell)
}

/// An interior page without a cell, which is not the last child, is joined with the next one, in the page of that, and its own page is given back. Refuses [55] with `child`, `kind` or `cells`, [51] and [50].
pub fn join_next<S: PageWrite>(
    alloc: Global,
    store: &mut S,
    page: &TreePage,
    step: Step,
    only_child: u32,
    limit: u32,
) -> Result<Opened, TreeFault<S::Fault>>
    requires sizes { HasSizes S.PageRead store.old }
    requires page { IsDecoded page.now.bytes page.now.number (S.usable store.old) page.now }
    requires kind { page.now.kind ≡ TableInterior }
    requires at { step.at < length page.now.views }
    requires child { IsChildAt page.now step.at step.child }
    requires in_range { IsNumber S.PageRead store.old step.child }
    ensures opened { IfOk result (λ opened. Becomes S.PageRead store.old store.new (OpensOver (sizes_of S.PageRead store.old) page.now step.child (OnlyChild only_child) opened)) }
    ensures within { IfOk result (λ opened. behind opened.change.at opened.change.goes ≤ length page.now.views) }
    ensures comes { IfOk result (λ opened. All (IsOneCell TableInterior (S.usable store.old)) opened.comes.items) }
    ensures few { IfOk result (λ opened. length opened.comes.items ≤ 1) }
    ensures count { OnOk result (S.count store.old ≤ S.count store.new) }
    ensures most { OnOk result (S.count store.new ≤ max limit (S.count store.old)) }
    ensures rises { OnOk result (RisesBy S.PageRead 1 store.old store.new) }
    ensures uses { OnOk result (OpensOne S.PageRead page.now step.at step.child (OnlyChild only_child) store.old store.new) }
    ensures refuses { RefusesBeside S.PageRead 2 limit page.now step.at step.child (OnlyChild only_child) store.old store.new result }
    ensures owes { OwesBy S.PageRead fault_in store.old store.new result }
{
    let beside = read_neighbour(alloc, store, page, step.at + 1)?;
    let middle = middle_cell(alloc, page, step.at, only_child)?;
    give_page(alloc, store, step.child)?;
    let front = Change {
        at: 0,
        goes: false,
        right: beside.right,
    };
    let comes = change_page(alloc, store, beside, front, middle, limit)?;
    Ok(Opened {
        change: Change {
            at: step.at,
            goes: true,
            right: page.right,
        },
        comes,
    })
}

/// An interior page without a cell, which is the last child, is joined with the one before it, whose page is given back. Refuses [55] with `child`, `kind` or `cells`, [51] and [50].
pub fn join_last<S: PageWrite>(
    alloc: Global,
    store: &mut S,
    page: &TreePage,
    step: Step,
    only_child: u32,
    limit: u32,
) -> Result<Opened, TreeFault<S::Fault>>
    requires sizes { HasSizes S.PageRead store.old }
    requires page { IsDecoded page.now.bytes page.now.number (S.usable store.old) page.now }
    requires kind { page.now.kind ≡ TableInterior }
    requires some { 0 < length page.now.views }
    requires at { step.at ≡ length page.now.views }
    requires child { IsChildAt page.now step.at step.child }
    requires in_range { IsNumber S.PageRead store.old step.child }
    ensures opened { IfOk result (λ opened. Becomes S.PageRead store.old store.new (OpensOver (sizes_of S.PageRead store.old) page.now step.child (OnlyChild only_child) opened)) }
    ensures within { IfOk result (λ opened. behind opened.change.at opened.change.goes ≤ length page.now.views) }
    ensures comes { IfOk result (λ opened. All (IsOneCell TableInterior (S.usable store.old)) opened.comes.items) }
    ensures few { IfOk result (λ opened. length opened.comes.items ≤ 1) }
    ensures count { OnOk result (S.count store.old ≤ S.count store.new) }
    ensures most { OnOk result (S.count store.new ≤ max limit (S.count store.old)) }
    ensures rises { OnOk result (RisesBy S.PageRead 1 store.old store.new) }
    ensures uses { OnOk result (OpensOne S.PageRead page.now step.at step.child (OnlyChild only_child) store.old store.new) }
    ensures refuses { RefusesBeside S.PageRead 2 limit page.now step.at step.child (OnlyChild only_child) store.old store.new result }
    ensures owes { OwesBy S.PageRead fault_in store.old store.new result }
{
    let end = step.at - 1;
    let beside = read_neighbour(alloc, store, page, end)?;
    let middle = middle_cell(alloc, page, end, beside.right)?;
    give_page(alloc, store, beside.number)?;
    let back = Change {
        at: beside.views.as_slice().len(),
        goes: false,
        right: only_child,
    };
    let comes = settle_elsewhere(alloc, store, beside, back, middle, step.child, limit)?;
    Ok(Opened {
        change: Change {
            at: end,
            goes: true,
            right: page.right,
        },
        comes,
    })
}
