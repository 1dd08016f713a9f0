// Cells of entries.
ghost use Rattle.std.specs.Prelude.{◌≡◌, ◌≤◌, ◌-◌, IfOk, IfSome, OnOk, length, max, take};
ghost use Rattle.format_spec.specs.declared.PageKind.TheVariants.{IndexLeaf};
ghost use Rattle.format_spec.specs.Cell.{cell_bytes, payload_limit};
ghost use Rattle.page_spec.specs.Rooms.{IsOneCell};
ghost use Rattle.page_store.specs.Store.{HasSizes, OwesBy};
ghost use Rattle.tree_pages.specs.Takes.{RefusesShort, RisesBy};
ghost use Rattle.tree_pages.specs.Writers.{Becomes, sizes_of};
ghost use Rattle.tree_spec.specs.Faults.{fault_in};
ghost use Rattle.tree_index.specs.Needs.{overflow_pages};
ghost use Rattle.tree_spec.specs.Standing.{Paged, Sizes};
ghost use Rattle.format_spec.specs.Sizes.{IsUsable};
ghost use Rattle.tree_index.specs.Puts.{MakesCell, entry_view};

use cell_codec::{CellView, PageKind, cell_length, local_size, write_cell};
use page_store::PageWrite;
use rbu_value::Bytes;
use std::alloc::{AllocError, Global};
use tree_pages::{TreeFault, write_overflow};

// The bytes of a cell, by its view and what it keeps of its payload.
fn spell(alloc: Global, view: &CellView, local: &[u8]) -> Result<Bytes, AllocError>
    requires { length local.now ≡ view.now.local }
    ensures { IfOk result (λ cell. cell ≡ cell_bytes IndexLeaf view.now local.now) }
{
    let mut bytes = vec![in alloc; 0; cell_length(PageKind::IndexLeaf, view)]?;
    write_cell(PageKind::IndexLeaf, view, local, bytes.as_mut_slice());
    Ok(Bytes::from_vec(bytes))
}

// The cell of an entry which keeps so many bytes of its payload, where the rest begins in this overflow page.
fn cell_of(alloc: Global, payload: &[u8], local: u32, overflow: u32) -> Result<Bytes, AllocError>
    requires { local ≤ length payload.now }
    ensures { IfOk result (λ cell. cell ≡ cell_bytes IndexLeaf (entry_view (length payload.now) local overflow) (take local payload.now)) }
{
    let view = CellView {
        size: 0,
        rowid: 0,
        child: 0,
        payload: payload.len() as u64,
        local_at: 0,
        local,
        overflow,
    };
    spell(alloc, &view, &payload[..local as usize])
}

/// The cell of an entry that needs no overflow chain; None where it needs one.
pub fn whole_cell(alloc: Global, usable: u32, payload: &[u8]) -> Result<Option<Bytes>, AllocError>
    requires usable { IsUsable usable }
    requires payload { length payload.now ≤ payload_limit }
    ensures made { IfOk result (λ made. IfSome made (λ cell. (sizes : Sizes) (base : Paged) → sizes.usable ≡ usable → MakesCell sizes payload.now cell base base)) }
    ensures cell { IfOk result (λ made. IfSome made (IsOneCell IndexLeaf usable)) }
{
    let size = payload.len() as u64;
    let local = local_size(PageKind::IndexLeaf, usable, size);
    if u64::from(local) < size {
        return Ok(None);
    }
    let cell = cell_of(alloc, payload, local, 0)?;
    Ok(Some(cell))
}

/// Makes the cell of an entry, and writes the overflow chain of what the cell does not keep. Refuses [51] and [50].
pub fn make_cell<S: PageWrite>(
    alloc: Global,
    store: &mut S,
    payload: &[u8],
    limit: u32,
) -> Result<Bytes, TreeFault<S::Fault>>
    requires sizes { HasSizes S.PageRead store.old }
    requires some { 1 ≤ S.count store.old }
    requires payload { length payload.now ≤ payload_limit }
    ensures made { IfOk result (λ cell. Becomes S.PageRead store.old store.new (MakesCell (sizes_of S.PageRead store.old) payload.now cell)) }
    ensures cell { IfOk result (IsOneCell IndexLeaf (S.usable store.old)) }
    ensures count { OnOk result (S.count store.old ≤ S.count store.new) }
    ensures most { OnOk result (S.count store.new ≤ max limit (S.count store.old)) }
    ensures rises { OnOk result (RisesBy S.PageRead (overflow_pages (S.usable store.old) (length payload.now)) store.old store.new) }
    ensures refuses { RefusesShort S.PageRead (overflow_pages (S.usable store.old) (length payload.now)) limit store.old store.new result }
    ensures owes { OwesBy S.PageRead fault_in store.old store.new result }
{
    let size = payload.len() as u64;
    let local = local_size(PageKind::IndexLeaf, store.usable(), size);
    let kept = local as usize;
    let overflow = write_overflow(alloc, store, &payload[kept..], limit)?;
    let cell = cell_of(alloc, payload, local, overflow)?;
    Ok(cell)
}
