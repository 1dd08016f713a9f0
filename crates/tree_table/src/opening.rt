// What an interior page is to have once something happened to a child of it.
ghost use Rattle.std.specs.Prelude.{◌≡◌, ◌≤◌, ◌<◌, IfErr, IfOk, List, None, OnOk, Some, length, max, slice_get, ℕ};
ghost use Rattle.std.specs.List.{All};
ghost use Rattle.format_spec.specs.declared.PageKind.TheVariants.{TableInterior};
ghost use Rattle.page_spec.specs.Rooms.{IsOneCell};
ghost use Rattle.page_store.specs.Store.{HasSizes, IsNumber, OwesBy};
ghost use Rattle.tree_level.specs.Changes.{behind};
ghost use Rattle.tree_pages.specs.Takes.{RisesBy};
ghost use Rattle.tree_pages.specs.Writers.{Becomes, paged, sizes_of};
ghost use Rattle.tree_spec.specs.Faults.{IsOther, fault_in};
ghost use Rattle.page_spec.specs.Freelists.{Trunk};
ghost use Rattle.page_spec.specs.Pages.{Pages};
ghost use Rattle.tree_spec.specs.Worlds.{IsFree};
ghost use Rattle.tree_walk.specs.Pages.{IsDecoded};
ghost use Rattle.tree_walk.specs.Places.{child_or, rowids};
ghost use Rattle.tree_walk.specs.Seeks.{IsIndexOf};
ghost use Rattle.tree_table.specs.Needs.{OpensOne, RefusesBeside};
ghost use Rattle.tree_table.specs.Deletes.{IsChildAt, IsFit, LosesLeaf, OpensOver};
ghost use Rattle.tree_table.specs.declared.taking.Left.TheVariants.{NoCell};

use crate::descending::child_number;
use crate::joining::{join_last, join_next};
use crate::taking::Left;
use page_store::{PageRead, PageWrite};
use rbu_value::Bytes;
use std::alloc::Global;
use tree_level::Change;
use tree_pages::{TreeFault, give_page};
use tree_walk::{TreePage, index_of};

/// The child of an interior page below which a rowid belongs, by its index and its page.
#[derive(Clone, Copy)]
pub struct Step {
    pub at: usize,
    pub child: u32,
}

/// What becomes of the cells of an interior page, and the cells that come.
#[derive(Drop)]
pub struct Opened {
    pub change: Change,
    pub comes: Vec<Bytes>,
}

/// The child below which a rowid belongs. Refuses [55] with `child`.
pub fn step_below<S: PageRead>(
    store: &S,
    page: &TreePage,
    rowid: i64,
) -> Result<Step, TreeFault<S::Fault>>
    requires { HasSizes S.PageRead store.now }
    ensures index { IfOk result (λ step. IsIndexOf rowid (rowids page.now.views) step.at) }
    ensures within { IfOk result (λ step. step.at ≤ length page.now.views) }
    ensures child { IfOk result (λ step. IsChildAt page.now step.at step.child) }
    ensures in_range { IfOk result (λ step. IsNumber S.PageRead store.now step.child) }
    ensures named { IfOk result (λ step. step.child ≡ child_or page.now.right (slice_get page.now.views step.at)) }
    ensures out { IfErr result (λ _. ¬ ((at : ℕ) → IsNumber S.PageRead store.now (child_or page.now.right (slice_get page.now.views at)))) }
    ensures cause { IfErr result (λ fault. fault_in fault ≡ None) }
{
    let at = index_of(page.views.as_slice(), rowid);
    let child = child_number(store, page, at)?;
    Ok(Step { at, child })
}

// How an interior page loses the child at an index: its cell goes, or where it is the last child, the cell before it, whose child is the last one then.
fn without_child(page: &TreePage, at: usize) -> Change
    requires some { 0 < length page.now.views }
    requires at { at ≤ length page.now.views }
    ensures lost { LosesLeaf page.now at result }
    ensures within { behind result.at result.goes ≤ length page.now.views }
{
    let end = page.views.as_slice().len() - 1;
    if at > end {
        return Change {
            at: end,
            goes: true,
            right: page.view_at(end).child,
        };
    }
    Change {
        at,
        goes: true,
        right: page.right,
    }
}

// A leaf that has no cell any more is given back.
fn drop_leaf<S: PageWrite>(
    alloc: Global,
    store: &mut S,
    page: &TreePage,
    step: Step,
) -> Result<Opened, TreeFault<S::Fault>>
    requires sizes { HasSizes S.PageRead store.old }
    requires page { IsDecoded page.now.bytes page.now.number (S.usable store.old) page.now }
    requires kind { page.now.kind ≡ TableInterior }
    requires some { 0 < length page.now.views }
    requires at { step.at ≤ length page.now.views }
    requires child { IsChildAt page.now step.at step.child }
    requires in_range { IsNumber S.PageRead store.old step.child }
    ensures opened { IfOk result (λ opened. Becomes S.PageRead store.old store.new (OpensOver (sizes_of S.PageRead store.old) page.now step.child NoCell opened)) }
    ensures within { IfOk result (λ opened. behind opened.change.at opened.change.goes ≤ length page.now.views) }
    ensures none { IfOk result (λ opened. length opened.comes.items ≡ 0) }
    ensures count { OnOk result (S.count store.new ≡ S.count store.old) }
    ensures uses { OnOk result (OpensOne S.PageRead page.now step.at step.child NoCell store.old store.new) }
    ensures sound { (m : Pages) (trunks : List Trunk) → S.pages store.old ≡ Some m → IsFree (sizes_of S.PageRead store.old) (paged S.PageRead store.old m) trunks → IfErr result IsOther }
    ensures owes { OwesBy S.PageRead fault_in store.old store.new result }
{
    let change = without_child(page, step.at);
    give_page(alloc, store, step.child)?;
    Ok(Opened {
        change,
        comes: Vec::new(alloc),
    })
}

/// What an interior page is to have, which has a cell, once a child is left so: dividers come from it, a leaf is given back, or an interior page is joined with a neighbour. Refuses [55] with `child`, `kind` or `cells`, [51] and [50].
pub fn open_page<S: PageWrite>(
    alloc: Global,
    store: &mut S,
    page: &TreePage,
    step: Step,
    below: Left,
    limit: u32,
) -> Result<Opened, TreeFault<S::Fault>>
    requires sizes { HasSizes S.PageRead store.old }
    requires page { IsDecoded page.now.bytes page.now.number (S.usable store.old) page.now }
    requires kind { page.now.kind ≡ TableInterior }
    requires some { 0 < length page.now.views }
    requires at { step.at ≤ length page.now.views }
    requires child { IsChildAt page.now step.at step.child }
    requires in_range { IsNumber S.PageRead store.old step.child }
    requires fit { IsFit (S.usable store.old) below }
    ensures opened { IfOk result (λ opened. Becomes S.PageRead store.old store.new (OpensOver (sizes_of S.PageRead store.old) page.now step.child below opened)) }
    ensures within { IfOk result (λ opened. behind opened.change.at opened.change.goes ≤ length page.now.views) }
    ensures comes { IfOk result (λ opened. All (IsOneCell TableInterior (S.usable store.old)) opened.comes.items) }
    ensures few { IfOk result (λ opened. length opened.comes.items ≤ 1) }
    ensures count { OnOk result (S.count store.old ≤ S.count store.new) }
    ensures most { OnOk result (S.count store.new ≤ max limit (S.count store.old)) }
    ensures rises { OnOk result (RisesBy S.PageRead 1 store.old store.new) }
    ensures uses { OnOk result (OpensOne S.PageRead page.now step.at step.child below store.old store.new) }
    ensures refuses { RefusesBeside S.PageRead 2 limit page.now step.at step.child below store.old store.new result }
    ensures owes { OwesBy S.PageRead fault_in store.old store.new result }
{
    match below {
        Left::Cells(comes) => Ok(Opened {
            change: Change {
                at: step.at,
                goes: false,
                right: page.right,
            },
            comes,
        }),
        Left::NoCell => drop_leaf(alloc, store, page, step),
        Left::OnlyChild(only) => {
            if step.at < page.views.as_slice().len() {
                join_next(alloc, store, page, step, only, limit)
            } else {
                join_last(alloc, store, page, step, only, limit)
            }
        }
    }
}
