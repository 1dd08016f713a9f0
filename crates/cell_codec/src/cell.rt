// The cells of b-tree pages.
ghost use Rattle.std.specs.Prelude.{◌≡◌, [], ◌+◌, ◌-◌, ◌^◌, ◌<◌, ◌≤◌, ◌⊎◌, ◌↔◌, ◌++◌, ℕ, ℤ, List, IfOk, IfSome, IsNone, length, take, drop};
ghost use Rattle.std.specs.Int.{w64};
ghost use Rattle.std.specs.Int.RustNames.{FitsSigned};
ghost use Rattle.byteorder.specs.Endian.{big_bytes, big_number};
ghost use Rattle.common_spec.specs.Reading.{Reads, OrFault};
ghost use Rattle.format_spec.specs.declared.CellView.{CellView};
ghost use Rattle.format_spec.specs.declared.PageKind.{PageKind};
ghost use Rattle.format_spec.specs.declared.PageKind.TheVariants.{IndexInterior, TableInterior, IndexLeaf, TableLeaf};
ghost use Rattle.format_spec.specs.Cell.{IsCell, IsTableInteriorCell, IsIndexCell, payload_limit, max_local as local_limit, local_size as local_bytes, child_size as child_bytes, overflow_size as overflow_bytes, cell_bytes, index_cell_bytes, table_leaf_cell};
ghost use Rattle.format_spec.specs.Sizes.{IsUsable};
ghost use Rattle.format_spec.specs.Varint.{IsVarint, varint};
ghost use Rattle.cell_codec.specs.Cells.{BeginsWithCell, BeginsWithLengthOver, HasCellFault, part_size, IsLocalPart, IsWritable, whole_cell, interior_cell, whole_index_cell};

use crate::varint::{read_varint, varint_length, write_varint};
use byteorder::{BigEndian, ByteOrder};
pub use format_spec::{CellView, PageKind};

/// The greatest length of a payload in bytes.
pub const PAYLOAD_LIMIT: u64 = 2147483647;

/// Why bytes begin with no cell.
#[derive(Debug, Clone, Copy, PartialEq, Eq)]
pub enum CellFault {
    /// The bytes end inside the cell: refusal 10.
    ShortCell,
    /// The payload is longer than 2147483647 bytes: refusal 11.
    SizeOverLimit,
}

// The longest payload that lies in a cell whole.
fn max_local(kind: PageKind, usable: u32) -> u32
    requires { IsUsable usable }
    ensures value { result ≡ local_limit kind usable }
{
    match kind {
        PageKind::TableLeaf | PageKind::TableInterior => usable - 35,
        PageKind::IndexLeaf | PageKind::IndexInterior => (usable - 12) * 64 / 255 - 23,
    }
}

/// How many bytes of a payload its cell keeps, on pages of 480 to 65536 usable bytes (Database File Format, section 1.6). The rest fills overflow pages.
#[tactic(auto, using(crate::specs::CellLaws::local_size_within, crate::specs::CellLaws::local_size_room))]
pub fn local_size(kind: PageKind, usable: u32, payload: u64) -> u32
    requires { IsUsable usable }
    ensures value { result ≡ local_bytes kind usable payload }
    ensures within { result ≤ payload }
    ensures room { result + 35 ≤ usable }
{
    let max_local = max_local(kind, usable);
    if payload <= u64::from(max_local) {
        return payload as u32;
    }
    let min_local = (usable - 12) * 32 / 255 - 23;
    let fitted = u64::from(min_local) + (payload - u64::from(min_local)) % u64::from(usable - 4);
    if fitted <= u64::from(max_local) {
        fitted as u32
    } else {
        min_local
    }
}

// How many bytes of a cell name its first overflow page.
fn overflow_size(local: u32, payload: u64) -> usize
    ensures value { result ≡ overflow_bytes local payload }
    ensures none_or_four { (result ≡ 0) ⊎ (result ≡ 4) }
{
    if u64::from(local) < payload { 4 } else { 0 }
}

// How many bytes of a cell name its left child.
fn child_size(kind: PageKind) -> usize
    ensures value { result ≡ child_bytes kind }
    ensures none_or_four { (result ≡ 0) ⊎ (result ≡ 4) }
{
    match kind {
        PageKind::TableLeaf | PageKind::IndexLeaf => 0,
        PageKind::TableInterior | PageKind::IndexInterior => 4,
    }
}

// The number in the bytes that name a page, or 0 where there are none.
fn read_page_number(bytes: &[u8]) -> u32
    requires { (length bytes.now ≡ 0) ⊎ (length bytes.now ≡ 4) }
    ensures { result ≡ big_number (length bytes.now) bytes.now }
{
    if bytes.is_empty() {
        0
    } else {
        BigEndian::read_u32(bytes)
    }
}

// The length of a payload at the front of the bytes, and how many bytes spell it.
fn read_payload_length(bytes: &[u8]) -> Result<(u64, usize), CellFault>
    ensures found { IfOk result (λ found. (found.1 ≤ length bytes.now) × IsVarint (take found.1 bytes.now) found.0 × (found.0 ≤ payload_limit)) }
    ensures only { (value n : ℕ) → n ≤ length bytes.now → IsVarint (take n bytes.now) value → value ≤ payload_limit → result ≡ Ok (value, n) }
    ensures over { (result ≡ Err CellFault.SizeOverLimit) ↔ BeginsWithLengthOver bytes.now }
{
    let (payload, size) = read_varint(bytes).ok_or(CellFault::ShortCell)?;
    if payload > PAYLOAD_LIMIT {
        return Err(CellFault::SizeOverLimit);
    }
    Ok((payload, size))
}

// What a cell keeps of a payload.
#[derive(Clone, Copy)]
struct LocalPart {
    // How many bytes it takes, with those that name the first overflow page.
    size: usize,
    local: u32,
    overflow: u32,
}

// The local part of a payload at the front of the bytes, or `None` where they end inside it.
fn read_local_part(kind: PageKind, usable: u32, payload: u64, bytes: &[u8]) -> Option<LocalPart>
    requires { IsUsable usable }
    ensures found { IfSome result (IsLocalPart kind usable payload bytes.now) }
    ensures none { IsNone result ↔ (length bytes.now < part_size kind usable payload) }
{
    let local = local_size(kind, usable, payload);
    let overflow_at = local as usize;
    let size = overflow_at + overflow_size(local, payload);
    if bytes.len() < size {
        return None;
    }
    Some(LocalPart {
        size,
        local,
        overflow: read_page_number(&bytes[overflow_at..size]),
    })
}

fn read_table_leaf_cell(usable: u32, bytes: &[u8]) -> Result<CellView, CellFault>
    requires { IsUsable usable }
    ensures found { IfOk result (BeginsWithCell TableLeaf usable bytes.now) }
    ensures only { (cell : CellView) → BeginsWithCell TableLeaf usable bytes.now cell → result ≡ Ok cell }
    ensures over { (result ≡ Err CellFault.SizeOverLimit) ↔ BeginsWithLengthOver bytes.now }
{
    let (payload, rowid_at) = read_payload_length(bytes)?;
    let (rowid, rowid_size) = read_varint(&bytes[rowid_at..]).ok_or(CellFault::ShortCell)?;
    let local_at = rowid_at + rowid_size;
    let part = read_local_part(PageKind::TableLeaf, usable, payload, &bytes[local_at..]).ok_or(
        CellFault::ShortCell,
    )?;
    Ok(CellView {
        size: (local_at + part.size) as u32,
        rowid: rowid.cast_signed(),
        child: 0,
        payload,
        local_at: local_at as u32,
        local: part.local,
        overflow: part.overflow,
    })
}

fn read_table_interior_cell(bytes: &[u8]) -> Result<CellView, CellFault>
    ensures found { IfOk result (λ cell. (cell.size ≤ length bytes.now) × IsTableInteriorCell (take cell.size bytes.now) cell) }
    ensures only { (cell : CellView) → (cell.size ≤ length bytes.now) × IsTableInteriorCell (take cell.size bytes.now) cell → result ≡ Ok cell }
    ensures over { ¬ (result ≡ Err CellFault.SizeOverLimit) }
{
    if bytes.len() < 4 {
        return Err(CellFault::ShortCell);
    }
    let (rowid, rowid_size) = read_varint(&bytes[4..]).ok_or(CellFault::ShortCell)?;
    let size = 4 + rowid_size;
    Ok(CellView {
        size: size as u32,
        rowid: rowid.cast_signed(),
        child: read_page_number(&bytes[..4]),
        payload: 0,
        local_at: 0,
        local: 0,
        overflow: 0,
    })
}

fn read_index_cell(kind: PageKind, usable: u32, bytes: &[u8]) -> Result<CellView, CellFault>
    requires { IsUsable usable }
    ensures found { IfOk result (λ cell. (cell.size ≤ length bytes.now) × IsIndexCell kind usable (take cell.size bytes.now) cell) }
    ensures only { (cell : CellView) → (cell.size ≤ length bytes.now) × IsIndexCell kind usable (take cell.size bytes.now) cell → result ≡ Ok cell }
    ensures over { (result ≡ Err CellFault.SizeOverLimit) ↔ BeginsWithLengthOver (drop (child_bytes kind) bytes.now) }
{
    let payload_at = child_size(kind);
    if bytes.len() < payload_at {
        return Err(CellFault::ShortCell);
    }
    let (payload, payload_size) = read_payload_length(&bytes[payload_at..])?;
    let local_at = payload_at + payload_size;
    let part = read_local_part(kind, usable, payload, &bytes[local_at..]).ok_or(
        CellFault::ShortCell,
    )?;
    Ok(CellView {
        size: (local_at + part.size) as u32,
        rowid: 0,
        child: read_page_number(&bytes[..payload_at]),
        payload,
        local_at: local_at as u32,
        local: part.local,
        overflow: part.overflow,
    })
}

/// Reads the cell at the front of the bytes, on pages of 480 to 65536 usable bytes. Where the payload is longer than the limit, that is the fault, also where the bytes end behind its length.
pub fn read_cell(kind: PageKind, usable: u32, bytes: &[u8]) -> Result<CellView, CellFault>
    requires { IsUsable usable }
    ensures { Reads (OrFault (BeginsWithCell kind usable bytes.now) (HasCellFault kind usable bytes.now)) result }
{
    match kind {
        PageKind::TableLeaf => read_table_leaf_cell(usable, bytes),
        PageKind::TableInterior => read_table_interior_cell(bytes),
        PageKind::IndexLeaf => read_index_cell(PageKind::IndexLeaf, usable, bytes),
        PageKind::IndexInterior => read_index_cell(PageKind::IndexInterior, usable, bytes),
    }
}

// Writes a number's shortest spelling at the front of the buffer, and answers its length.
fn put_varint(value: u64, into: &mut [u8]) -> usize
    requires { length (varint value) ≤ length into.old }
    ensures length { result ≡ length (varint value) }
    ensures written { into.new ≡ varint value ++ drop result into.old }
{
    let mut spelling = [0; 9];
    let size = write_varint(value, &mut spelling);
    into[..size].copy_from_slice(&spelling[..size]);
    size
}

#[tactic(auto, using(crate::specs::CellLaws::index_cell_bytes_size))]
fn index_cell_length(kind: PageKind, cell: &CellView) -> usize
    ensures { (local : List ℕ) → length local ≡ cell.now.local → result ≡ length (index_cell_bytes kind cell.now local) }
{
    child_size(kind)
        + varint_length(cell.payload)
        + cell.local as usize
        + overflow_size(cell.local, cell.payload)
}

/// The length of a cell's shortest spelling in bytes, whatever stands in its local payload.
#[tactic(auto, using(crate::specs::CellLaws::cell_bytes_size, crate::specs::CellLaws::table_interior_cell_bytes_size, crate::specs::CellLaws::index_leaf_cell_is, crate::specs::CellLaws::index_interior_cell_is))]
pub fn cell_length(kind: PageKind, cell: &CellView) -> usize
    ensures { (local : List ℕ) → length local ≡ cell.now.local → result ≡ length (cell_bytes kind cell.now local) }
{
    match kind {
        PageKind::TableLeaf => {
            varint_length(cell.payload)
                + varint_length(cell.rowid.cast_unsigned())
                + cell.local as usize
                + overflow_size(cell.local, cell.payload)
        }
        PageKind::TableInterior => 4 + varint_length(cell.rowid.cast_unsigned()),
        PageKind::IndexLeaf => index_cell_length(PageKind::IndexLeaf, cell),
        PageKind::IndexInterior => index_cell_length(PageKind::IndexInterior, cell),
    }
}

// Writes the number of a page into the bytes that name it, none or four.
fn put_page_number(page: u32, size: usize, into: &mut [u8])
    requires none_or_four { (size ≡ 0) ⊎ (size ≡ 4) }
    requires room { size ≤ length into.old }
    ensures { into.new ≡ big_bytes size page ++ drop size into.old }
{
    if size > 0 {
        BigEndian::write_u32(into, page);
    }
}

// Writes the local part of a payload at the front of the buffer, and answers its length.
fn put_local_part(cell: &CellView, local: &[u8], into: &mut [u8]) -> usize
    requires local { length local.now ≡ cell.now.local }
    requires room { cell.now.local + overflow_bytes cell.now.local cell.now.payload ≤ length into.old }
    ensures length { result ≡ cell.now.local + overflow_bytes cell.now.local cell.now.payload }
    ensures written { into.new ≡ local.now ++ big_bytes (overflow_bytes cell.now.local cell.now.payload) cell.now.overflow ++ drop result into.old }
{
    let overflow_at = local.len();
    into[..overflow_at].copy_from_slice(local);
    let overflow_length = overflow_size(cell.local, cell.payload);
    put_page_number(cell.overflow, overflow_length, &mut into[overflow_at..]);
    overflow_at + overflow_length
}

#[tactic(auto, using(crate::specs::CellLaws::cell_bytes_size))]
fn write_table_leaf_cell(cell: &CellView, local: &[u8], into: &mut [u8]) -> usize
    requires local { length local.now ≡ cell.now.local }
    requires room { length (cell_bytes TableLeaf cell.now local.now) ≤ length into.old }
    ensures length { result ≡ length (cell_bytes TableLeaf cell.now local.now) }
    ensures written { into.new ≡ cell_bytes TableLeaf cell.now local.now ++ drop result into.old }
{
    let rowid_at = put_varint(cell.payload, into);
    let local_at = rowid_at + put_varint(cell.rowid.cast_unsigned(), &mut into[rowid_at..]);
    local_at + put_local_part(cell, local, &mut into[local_at..])
}

#[tactic(auto, using(crate::specs::CellLaws::table_interior_cell_bytes_size))]
fn write_table_interior_cell(cell: &CellView, into: &mut [u8]) -> usize
    requires { length (cell_bytes TableInterior cell.now []) ≤ length into.old }
    ensures length { result ≡ length (cell_bytes TableInterior cell.now []) }
    ensures written { into.new ≡ cell_bytes TableInterior cell.now [] ++ drop result into.old }
{
    put_page_number(cell.child, 4, into);
    4 + put_varint(cell.rowid.cast_unsigned(), &mut into[4..])
}

#[tactic(auto, using(crate::specs::CellLaws::index_cell_bytes_size))]
fn write_index_cell(kind: PageKind, cell: &CellView, local: &[u8], into: &mut [u8]) -> usize
    requires local { length local.now ≡ cell.now.local }
    requires room { length (index_cell_bytes kind cell.now local.now) ≤ length into.old }
    ensures length { result ≡ length (index_cell_bytes kind cell.now local.now) }
    ensures written { into.new ≡ index_cell_bytes kind cell.now local.now ++ drop result into.old }
{
    let payload_at = child_size(kind);
    put_page_number(cell.child, payload_at, into);
    let local_at = payload_at + put_varint(cell.payload, &mut into[payload_at..]);
    local_at + put_local_part(cell, local, &mut into[local_at..])
}

/// Writes a cell's shortest spelling, with the local part of its payload, at the front of the buffer, and answers its length. `cell_length` tells beforehand whether it fits. The view's `size` and `local_at` are not read, and no field that the kind lacks.
pub fn write_cell(kind: PageKind, cell: &CellView, local: &[u8], into: &mut [u8]) -> usize
    requires local { length local.now ≡ cell.now.local }
    requires room { length (cell_bytes kind cell.now local.now) ≤ length into.old }
    ensures length { result ≡ length (cell_bytes kind cell.now local.now) }
    ensures written { into.new ≡ cell_bytes kind cell.now local.now ++ drop result into.old }
{
    match kind {
        PageKind::TableLeaf => write_table_leaf_cell(cell, local, into),
        PageKind::TableInterior => write_table_interior_cell(cell, into),
        PageKind::IndexLeaf => write_index_cell(PageKind::IndexLeaf, cell, local, into),
        PageKind::IndexInterior => write_index_cell(PageKind::IndexInterior, cell, local, into),
    }
}

/// Bytes spell one cell, and no cell begins another.
pub fn cell_has_one_reading()
    ensures { (kind : PageKind) (usable : ℕ) (a b x y : List ℕ) (c d : CellView) → IsCell kind usable a c → IsCell kind usable b d → a ++ x ≡ b ++ y → (a ≡ b) × (c ≡ d) }
{}

/// What is written of a view is a cell with that view. There are such views: a row whose payload lies in its cell whole, and there it is read; a child and a rowid; a payload that lies whole in a cell of an index.
pub fn written_cell_is_read()
    ensures cell { (kind : PageKind) (usable : ℕ) (cell : CellView) (local : List ℕ) → IsWritable kind usable cell local → IsCell kind usable (cell_bytes kind cell local) cell }
    ensures whole { (usable : ℕ) (rowid : ℤ) (payload : List ℕ) → FitsSigned w64 rowid → length payload ≤ usable - 35 → length payload ≤ payload_limit
        → IsCell TableLeaf usable (table_leaf_cell rowid payload) (whole_cell rowid payload) }
    ensures payload { (rowid : ℤ) (payload : List ℕ) → take (length payload) (drop (whole_cell rowid payload).local_at (table_leaf_cell rowid payload)) ≡ payload }
    ensures interior { (usable child : ℕ) (rowid : ℤ) → child < 2 ^ 32 → FitsSigned w64 rowid → IsWritable TableInterior usable (interior_cell child rowid) [] }
    ensures index_leaf { (usable : ℕ) (payload : List ℕ) → length payload ≤ local_limit IndexLeaf usable → length payload ≤ payload_limit
        → IsWritable IndexLeaf usable (whole_index_cell IndexLeaf 0 payload) payload }
    ensures index_interior { (usable child : ℕ) (payload : List ℕ) → child < 2 ^ 32 → length payload ≤ local_limit IndexInterior usable → length payload ≤ payload_limit
        → IsWritable IndexInterior usable (whole_index_cell IndexInterior child payload) payload }
{}
