// What an interior page is to have once something happened to a child of it.
ghost use Rattle.std.specs.Prelude.{◌≡◌, ◌≤◌, ◌<◌, ◌⊎◌, ◌^◌, ◌++◌, ◌∷◌, [], IfOk, OnOk, length, max};
ghost use Rattle.std.specs.List.{All};
ghost use Rattle.format_spec.specs.declared.PageKind.TheVariants.{IndexInterior, IndexLeaf};
ghost use Rattle.format_spec.specs.Cell.{child_size};
ghost use Rattle.page_spec.specs.Rooms.{IsOneCell};
ghost use Rattle.page_store.specs.Store.{HasSizes, IsNumber, OwesBy};
ghost use Rattle.index_delete_spec.specs.Steps.{IsOfIndex};
ghost use Rattle.tree_level.specs.Changes.{IsReadable, behind};
ghost use Rattle.tree_pages.specs.Takes.{RisesBy};
ghost use Rattle.tree_pages.specs.Writers.{Becomes, sizes_of};
ghost use Rattle.tree_spec.specs.Faults.{fault_in};
ghost use Rattle.tree_walk.specs.Pages.{IsDecoded};
ghost use Rattle.index_cells.specs.Respelling.{IsWhole, respelled};
ghost use Rattle.index_delete.specs.Deletes.{Brings, HasCell, IsChildAt, IsFit, OpensOver, ReplacesOver, opened_most};
ghost use Rattle.index_delete.specs.Needs.{OpensBy, RefusesBeside};
ghost use Rattle.index_delete.specs.declared.levels.Left.TheVariants.{NoCell};

use crate::joining::{join_last, join_next};
use crate::levels::{Emptied, Left, Opened, Step};
use cell_codec::PageKind;
use index_cells::{Taken, spell, take_cell};
use page_store::PageWrite;
use rbu_value::Bytes;
use std::alloc::{AllocError, Global};
use tree_level::{Change, push_cell};
use tree_pages::TreeFault;
use tree_walk::TreePage;

// The cells that came from a child, and behind them a cell that names it.
fn with_cell(
    alloc: Global,
    came: Vec<Bytes>,
    up: &Taken,
    child: u32,
) -> Result<Vec<Bytes>, AllocError>
    requires { child_size up.now.kind ≤ length up.now.bytes }
    ensures small { child < 2 ^ 32 }
    ensures cells { IfOk result (λ cells. cells.items ≡ came.items ++ respelled up.now.kind IndexInterior child up.now.bytes ∷ []) }
{
    let cell = spell(alloc, up, PageKind::IndexInterior, child)?;
    let mut cells = came;
    push_cell(&mut cells, cell)?;
    Ok(cells)
}

// A child that has no cell any more is joined with a neighbour, over the cell between them. Refuses [55] with `child`, `kind` or `cells`, [51] and [50].
fn join_page<S: PageWrite>(
    alloc: Global,
    store: &mut S,
    page: &TreePage,
    step: Step,
    emptied: Emptied,
    limit: u32,
) -> Result<Opened, TreeFault<S::Fault>>
    requires sizes { HasSizes S.PageRead store.old }
    requires page { IsDecoded page.now.bytes page.now.number (S.usable store.old) page.now }
    requires readable { IsReadable page.now }
    requires kind { page.now.kind ≡ IndexInterior }
    requires some { 0 < length page.now.views }
    requires at { step.at ≤ length page.now.views }
    requires child { IsChildAt page.now step.at step.child }
    requires in_range { IsNumber S.PageRead store.old step.child }
    requires fit { IsOfIndex emptied.kind }
    requires leaf { emptied.kind ≡ IndexLeaf → emptied.only ≡ 0 }
    ensures opened { IfOk result (λ opened. Becomes S.PageRead store.old store.new (OpensOver (sizes_of S.PageRead store.old) page.now step.at step.child (NoCell emptied) opened)) }
    ensures within { IfOk result (λ opened. behind opened.change.at opened.change.goes ≤ length page.now.views) }
    ensures right { IfOk result (λ opened. opened.change.right ≡ page.now.right) }
    ensures comes { IfOk result (λ opened. All (IsOneCell IndexInterior (S.usable store.old)) opened.comes.items) }
    ensures few { IfOk result (λ opened. length opened.comes.items ≤ 2) }
    ensures count { OnOk result (S.count store.old ≤ S.count store.new) }
    ensures most { OnOk result (S.count store.new ≤ max limit (S.count store.old)) }
    ensures rises { IfOk result (λ opened. RisesBy S.PageRead (length opened.comes.items) store.old store.new) }
    ensures uses { IfOk result (λ opened. OpensBy S.PageRead (length opened.comes.items) page.now step.at step.child (NoCell emptied) store.old store.new) }
    ensures refuses { RefusesBeside S.PageRead 2 limit page.now step.at step.child (NoCell emptied) store.old store.new result }
    ensures owes { OwesBy S.PageRead fault_in store.old store.new result }
{
    if step.at < page.views.as_slice().len() {
        let between = take_cell(alloc, page, step.at)?;
        return join_next(alloc, store, page, step, emptied, &between, limit);
    }
    join_last(alloc, store, page, step, emptied, limit)
}

/// What an interior page is to have, which has a cell, once a child is left so: dividers come from it, or it is joined with a neighbour. Refuses [55] with `child`, `kind` or `cells`, [51] and [50].
pub fn open_page<S: PageWrite>(
    alloc: Global,
    store: &mut S,
    page: &TreePage,
    step: Step,
    below: Left,
    limit: u32,
) -> Result<Opened, TreeFault<S::Fault>>
    requires sizes { HasSizes S.PageRead store.old }
    requires page { IsDecoded page.now.bytes page.now.number (S.usable store.old) page.now }
    requires readable { IsReadable page.now }
    requires kind { page.now.kind ≡ IndexInterior }
    requires some { 0 < length page.now.views }
    requires at { step.at ≤ length page.now.views }
    requires child { IsChildAt page.now step.at step.child }
    requires in_range { IsNumber S.PageRead store.old step.child }
    requires fit { IsFit (S.usable store.old) below }
    ensures opened { IfOk result (λ opened. Becomes S.PageRead store.old store.new (OpensOver (sizes_of S.PageRead store.old) page.now step.at step.child below opened)) }
    ensures within { IfOk result (λ opened. behind opened.change.at opened.change.goes ≤ length page.now.views) }
    ensures right { IfOk result (λ opened. opened.change.right ≡ page.now.right) }
    ensures comes { IfOk result (λ opened. All (IsOneCell IndexInterior (S.usable store.old)) opened.comes.items) }
    ensures few { IfOk result (λ opened. length opened.comes.items ≤ 2) }
    ensures count { OnOk result (S.count store.old ≤ S.count store.new) }
    ensures most { OnOk result (S.count store.new ≤ max limit (S.count store.old)) }
    ensures came { IfOk result (Brings below) }
    ensures rises { IfOk result (λ opened. RisesBy S.PageRead (opened_most below opened) store.old store.new) }
    ensures uses { IfOk result (λ opened. OpensBy S.PageRead (opened_most below opened) page.now step.at step.child below store.old store.new) }
    ensures refuses { RefusesBeside S.PageRead 2 limit page.now step.at step.child below store.old store.new result }
    ensures owes { OwesBy S.PageRead fault_in store.old store.new result }
{
    match below {
        Left::Cells(comes) => Ok(Opened {
            change: Change {
                at: step.at,
                goes: false,
                right: page.right,
            },
            comes,
        }),
        Left::NoCell(emptied) => join_page(alloc, store, page, step, emptied, limit),
    }
}

/// What an interior page is to have of which a cell goes, where the last cell below its child takes its place and the child is left so. Refuses [55] with `child`, `kind` or `cells`, [51] and [50].
pub fn replace_cell<S: PageWrite>(
    alloc: Global,
    store: &mut S,
    page: &TreePage,
    step: Step,
    up: &Taken,
    below: Left,
    limit: u32,
) -> Result<Opened, TreeFault<S::Fault>>
    requires sizes { HasSizes S.PageRead store.old }
    requires page { IsDecoded page.now.bytes page.now.number (S.usable store.old) page.now }
    requires kind { page.now.kind ≡ IndexInterior }
    requires at { step.at < length page.now.views }
    requires child { IsChildAt page.now step.at step.child }
    requires in_range { IsNumber S.PageRead store.old step.child }
    requires of { IsOfIndex up.now.kind }
    requires up { IsWhole (S.usable store.old) up.now }
    requires fit { IsFit (S.usable store.old) below }
    ensures opened { IfOk result (λ opened. Becomes S.PageRead store.old store.new (ReplacesOver (sizes_of S.PageRead store.old) page.now step.at up.now step.child below opened)) }
    ensures within { IfOk result (λ opened. behind opened.change.at opened.change.goes ≤ length page.now.views) }
    ensures right { IfOk result (λ opened. opened.change.right ≡ page.now.right) }
    ensures comes { IfOk result (λ opened. All (IsOneCell IndexInterior (S.usable store.old)) opened.comes.items) }
    ensures few { IfOk result (λ opened. length opened.comes.items ≤ 3) }
    ensures count { OnOk result (S.count store.old ≤ S.count store.new) }
    ensures most { OnOk result (S.count store.new ≤ max limit (S.count store.old)) }
    ensures came { IfOk result (λ opened. HasCell below → 0 < length opened.comes.items) }
    ensures joined { IfOk result (λ opened. HasCell below ⊎ (length opened.comes.items ≤ 2)) }
    ensures rises { IfOk result (λ opened. RisesBy S.PageRead (opened_most below opened) store.old store.new) }
    ensures uses { IfOk result (λ opened. OpensBy S.PageRead (opened_most below opened) page.now step.at step.child below store.old store.new) }
    ensures refuses { RefusesBeside S.PageRead 2 limit page.now step.at step.child below store.old store.new result }
    ensures owes { OwesBy S.PageRead fault_in store.old store.new result }
{
    match below {
        Left::Cells(came) => {
            let comes = with_cell(alloc, came, up, step.child)?;
            Ok(Opened {
                change: Change {
                    at: step.at,
                    goes: true,
                    right: page.right,
                },
                comes,
            })
        }
        Left::NoCell(emptied) => join_next(alloc, store, page, step, emptied, up, limit),
    }
}
