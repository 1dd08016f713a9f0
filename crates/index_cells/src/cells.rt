// Cells of an index's page.
ghost use Rattle.std.specs.Prelude.{◌≡◌, ◌≤◌, ◌<◌, ◌++◌, ℕ, List, [], IfOk, drop, length, slice_index_or};
ghost use Rattle.byteorder.specs.Endian.{big_bytes};
ghost use Rattle.format_spec.specs.Cell.{child_size};
ghost use Rattle.put_spec.specs.Steps.{Spelled, bytes_in};
ghost use Rattle.index_delete_spec.specs.Steps.{IsOfIndex};
ghost use Rattle.tree_level.specs.Changes.{HasSpelled, IsReadable};
ghost use Rattle.index_cells.specs.Respelling.{IsCellAt, respelled};

use byte_fields::put_u32;
use cell_codec::{CellView, PageKind};
use page_layout::place_of;
use rbu_value::Bytes;
use std::alloc::{AllocError, Global};
use tree_walk::TreePage;

/// A cell of an index's page, as it stood there.
#[derive(Drop)]
pub struct Taken {
    /// The kind of the page.
    pub kind: PageKind,
    pub bytes: Bytes,
    pub view: CellView,
}

// The bytes of a cell.
fn bytes_at(page: &TreePage, at: usize) -> &[u8]
    requires page { IsReadable page.now }
    requires within { at < length page.now.views }
    ensures { (usable : ℕ) (cells : List Spelled) → HasSpelled usable page.now cells → result.now ≡ slice_index_or (bytes_in cells) at [] }
{
    let bytes = page.bytes.as_slice();
    let start = place_of(bytes, page.number, page.kind, at as u32);
    &bytes[start..start + page.view_at(at).size as usize]
}

/// Copies the cell at an index of a page.
pub fn take_cell(alloc: Global, page: &TreePage, at: usize) -> Result<Taken, AllocError>
    requires page { IsReadable page.now }
    requires within { at < length page.now.views }
    ensures kind { IfOk result (λ taken. taken.kind ≡ page.now.kind) }
    ensures cell { IfOk result (IsCellAt page.now at) }
{
    let bytes = Bytes::of(alloc, bytes_at(page, at))?;
    Ok(Taken {
        kind: page.kind,
        bytes,
        view: page.view_at(at),
    })
}

// What stands in a cell behind its child.
fn behind_child(kind: PageKind, cell: &[u8]) -> &[u8]
    requires { child_size kind ≤ length cell.now }
    ensures { result.now ≡ drop (child_size kind) cell.now }
{
    match kind {
        PageKind::TableLeaf | PageKind::IndexLeaf => cell,
        PageKind::TableInterior | PageKind::IndexInterior => &cell[4..],
    }
}

// A cell that begins with a child, and goes on with these bytes.
fn with_child(alloc: Global, child: u32, rest: &[u8]) -> Result<Bytes, AllocError>
    ensures { IfOk result (λ cell. cell ≡ big_bytes 4 child ++ rest.now) }
{
    let mut front = [0; 4];
    put_u32(&mut front, 0, child);
    let mut cell = Vec::from_slice(alloc, &front)?;
    cell.extend_from_slice(rest)?;
    Ok(Bytes::from_vec(cell))
}

/// Spells a cell for a page of a kind. In an interior page it names the child.
pub fn spell(alloc: Global, taken: &Taken, kind: PageKind, child: u32) -> Result<Bytes, AllocError>
    requires { child_size taken.now.kind ≤ length taken.now.bytes }
    ensures { IfOk result (λ cell. cell ≡ respelled taken.now.kind kind child taken.now.bytes) }
{
    let rest = behind_child(taken.kind, taken.bytes.as_slice());
    match kind {
        PageKind::TableLeaf | PageKind::IndexLeaf => Bytes::of(alloc, rest),
        PageKind::TableInterior | PageKind::IndexInterior => with_child(alloc, child, rest),
    }
}
