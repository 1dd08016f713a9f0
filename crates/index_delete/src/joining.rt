// Joins a page that has no cell any more with a neighbour.
ghost use Rattle.std.specs.Prelude.{◌≡◌, ◌≤◌, ◌<◌, IfOk, OnOk, length, max};
ghost use Rattle.std.specs.List.{All};
ghost use Rattle.format_spec.specs.declared.PageKind.TheVariants.{IndexInterior, IndexLeaf};
ghost use Rattle.page_spec.specs.Rooms.{IsOneCell};
ghost use Rattle.page_store.specs.Store.{HasSizes, IsNumber, OwesBy};
ghost use Rattle.index_delete_spec.specs.Steps.{IsOfIndex};
ghost use Rattle.tree_level.specs.Changes.{IsReadable, behind};
ghost use Rattle.tree_pages.specs.Takes.{RisesBy};
ghost use Rattle.tree_pages.specs.Writers.{Becomes, sizes_of};
ghost use Rattle.tree_spec.specs.Faults.{fault_in};
ghost use Rattle.tree_walk.specs.Pages.{IsDecoded};
ghost use Rattle.index_cells.specs.Respelling.{IsCellAt, IsWhole};
ghost use Rattle.index_delete.specs.Deletes.{IsChildAt, OpensOver, ReplacesOver};
ghost use Rattle.index_delete.specs.Needs.{OpensBy, RefusesBeside};
ghost use Rattle.index_delete.specs.declared.levels.Left.TheVariants.{NoCell};

use crate::beside::{read_beside, spell_once};
use crate::levels::{Emptied, Opened, Step};
use index_cells::{Taken, take_cell};
use page_store::PageWrite;
use std::alloc::Global;
use tree_level::{Change, change_page, settle_elsewhere};
use tree_pages::{TreeFault, give_page};
use tree_walk::TreePage;

/// A page without a cell, which is not the last child, is joined with the next one, in the page of that, and its own page is given back. Between their cells comes the given one: that of their parent, or the last one that stood below the page, which then takes the place of the parent's. Refuses [55] with `child`, `kind` or `cells`, [51] and [50].
pub fn join_next<S: PageWrite>(
    alloc: Global,
    store: &mut S,
    page: &TreePage,
    step: Step,
    emptied: Emptied,
    between: &Taken,
    limit: u32,
) -> Result<Opened, TreeFault<S::Fault>>
    requires sizes { HasSizes S.PageRead store.old }
    requires page { IsDecoded page.now.bytes page.now.number (S.usable store.old) page.now }
    requires kind { page.now.kind ≡ IndexInterior }
    requires at { step.at < length page.now.views }
    requires child { IsChildAt page.now step.at step.child }
    requires in_range { IsNumber S.PageRead store.old step.child }
    requires fit { IsOfIndex emptied.kind }
    requires leaf { emptied.kind ≡ IndexLeaf → emptied.only ≡ 0 }
    requires of { IsOfIndex between.now.kind }
    requires between { IsWhole (S.usable store.old) between.now }
    ensures opened { IfOk result (λ opened. IsCellAt page.now step.at between.now → Becomes S.PageRead store.old store.new (OpensOver (sizes_of S.PageRead store.old) page.now step.at step.child (NoCell emptied) opened)) }
    ensures replaced { IfOk result (λ opened. Becomes S.PageRead store.old store.new (ReplacesOver (sizes_of S.PageRead store.old) page.now step.at between.now step.child (NoCell emptied) opened)) }
    ensures within { IfOk result (λ opened. behind opened.change.at opened.change.goes ≤ length page.now.views) }
    ensures right { IfOk result (λ opened. opened.change.right ≡ page.now.right) }
    ensures comes { IfOk result (λ opened. All (IsOneCell IndexInterior (S.usable store.old)) opened.comes.items) }
    ensures few { IfOk result (λ opened. length opened.comes.items ≤ 2) }
    ensures count { OnOk result (S.count store.old ≤ S.count store.new) }
    ensures most { OnOk result (S.count store.new ≤ max limit (S.count store.old)) }
    ensures rises { IfOk result (λ opened. RisesBy S.PageRead (length opened.comes.items) store.old store.new) }
    ensures uses { IfOk result (λ opened. OpensBy S.PageRead (length opened.comes.items) page.now step.at step.child (NoCell emptied) store.old store.new) }
    ensures refuses { RefusesBeside S.PageRead 2 limit page.now step.at step.child (NoCell emptied) store.old store.new result }
    ensures owes { OwesBy S.PageRead fault_in store.old store.new result }
{
    let beside = read_beside(alloc, store, page, step.at + 1, emptied.kind)?;
    let middle = spell_once(alloc, between, emptied.kind, emptied.only)?;
    give_page(alloc, store, step.child)?;
    let front = Change {
        at: 0,
        goes: false,
        right: beside.right,
    };
    let comes = change_page(alloc, store, beside, front, middle, limit)?;
    Ok(Opened {
        change: Change {
            at: step.at,
            goes: true,
            right: page.right,
        },
        comes,
    })
}

/// A page without a cell, which is the last child, is joined with the one before it, whose page is given back. Between their cells comes that of their parent. Refuses [55] with `child`, `kind` or `cells`, [51] and [50].
pub fn join_last<S: PageWrite>(
    alloc: Global,
    store: &mut S,
    page: &TreePage,
    step: Step,
    emptied: Emptied,
    limit: u32,
) -> Result<Opened, TreeFault<S::Fault>>
    requires sizes { HasSizes S.PageRead store.old }
    requires page { IsDecoded page.now.bytes page.now.number (S.usable store.old) page.now }
    requires readable { IsReadable page.now }
    requires kind { page.now.kind ≡ IndexInterior }
    requires some { 0 < length page.now.views }
    requires at { step.at ≡ length page.now.views }
    requires child { IsChildAt page.now step.at step.child }
    requires in_range { IsNumber S.PageRead store.old step.child }
    requires fit { IsOfIndex emptied.kind }
    requires leaf { emptied.kind ≡ IndexLeaf → emptied.only ≡ 0 }
    ensures opened { IfOk result (λ opened. Becomes S.PageRead store.old store.new (OpensOver (sizes_of S.PageRead store.old) page.now step.at step.child (NoCell emptied) opened)) }
    ensures within { IfOk result (λ opened. behind opened.change.at opened.change.goes ≤ length page.now.views) }
    ensures right { IfOk result (λ opened. opened.change.right ≡ page.now.right) }
    ensures comes { IfOk result (λ opened. All (IsOneCell IndexInterior (S.usable store.old)) opened.comes.items) }
    ensures few { IfOk result (λ opened. length opened.comes.items ≤ 2) }
    ensures count { OnOk result (S.count store.old ≤ S.count store.new) }
    ensures most { OnOk result (S.count store.new ≤ max limit (S.count store.old)) }
    ensures rises { IfOk result (λ opened. RisesBy S.PageRead (length opened.comes.items) store.old store.new) }
    ensures uses { IfOk result (λ opened. OpensBy S.PageRead (length opened.comes.items) page.now step.at step.child (NoCell emptied) store.old store.new) }
    ensures refuses { RefusesBeside S.PageRead 2 limit page.now step.at step.child (NoCell emptied) store.old store.new result }
    ensures owes { OwesBy S.PageRead fault_in store.old store.new result }
{
    let end = step.at - 1;
    let beside = read_beside(alloc, store, page, end, emptied.kind)?;
    let between = take_cell(alloc, page, end)?;
    let middle = spell_once(alloc, &between, emptied.kind, beside.right)?;
    give_page(alloc, store, beside.number)?;
    let back = Change {
        at: beside.views.as_slice().len(),
        goes: false,
        right: emptied.only,
    };
    let comes = settle_elsewhere(alloc, store, beside, back, middle, step.child, limit)?;
    Ok(Opened {
        change: Change {
            at: end,
            goes: true,
            right: page.right,
        },
        comes,
    })
}
