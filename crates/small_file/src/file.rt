// Reads the two pages of a small file: the schema with its one row, and the table.
ghost use Rattle.std.specs.Prelude.{◌≡◌, ℕ, pos, ◌≤◌, ◌↔◌, List, IfOk, IfSome, IfNone, IsTrue, length};
ghost use Rattle.small_spec.specs.SmallFile.{IsWholeCell, IsSmallFile};
ghost use Rattle.small_file.specs.Pages.{IsPlaced, cell_of};
ghost use Rattle.small_file.specs.Files.{payload_of, HasSchema, HoldsTable};

use crate::header::is_small_header;
use crate::page::{PAGE_SIZE, PlacedCell, read_page};
use std::alloc::{AllocError, Global};

/// The payload of a cell that has it whole.
pub fn payload<'a>(page: &'a [u8], cell: &PlacedCell) -> Option<&'a [u8]>
    requires long { length page.now ≡ 4096 }
    requires placed { IsPlaced page.now cell.now }
    ensures whole { IfSome result (λ _. cell.now.view.local ≡ cell.now.view.payload) }
    ensures bytes { IfSome result (λ bytes. bytes.now ≡ payload_of page.now cell.now) }
    ensures most { IfSome result (λ bytes. length bytes.now ≤ 4096) }
    ensures none { IfNone result (cell.now.view.local ≡ cell.now.view.payload → ⊥) }
{
    if u64::from(cell.view.local) != cell.view.payload {
        return None;
    }
    let start = cell.place + cell.view.local_at as usize;
    Some(&page[start..start + cell.view.local as usize])
}

// Whether the cell is the row of the schema with this record, at rowid 1.
fn is_schema_row(page: &[u8], cell: &PlacedCell, schema: &[u8]) -> bool
    requires long { length page.now ≡ 4096 }
    requires placed { IsPlaced page.now cell.now }
    ensures { IsTrue result ↔ IsWholeCell (cell_of page.now cell.now) (pos 1) schema.now }
{
    match payload(page, cell) {
        Some(bytes) => cell.view.rowid == 1 && bytes == schema,
        None => false,
    }
}

// Whether the page has the schema of a small file.
fn has_schema(alloc: Global, page: &[u8], schema: &[u8]) -> Result<bool, AllocError>
    requires { length page.now ≡ 4096 }
    ensures { IfOk result (λ found. IsTrue found ↔ HasSchema page.now schema.now) }
{
    let Some(cells) = read_page(alloc, page, 1)? else {
        return Ok(false);
    };
    match cells.as_slice() {
        [cell] => Ok(is_schema_row(page, cell, schema)),
        _ => Ok(false),
    }
}

/// The cells of the table in a small file, which stand in its second page. `None` where the bytes are not a small file with this record in its schema.
pub fn read_table(
    alloc: Global,
    bytes: &[u8],
    schema: &[u8],
) -> Result<Option<Vec<PlacedCell>>, AllocError>
    ensures found { IfOk result (λ answer. IfSome answer (λ cells. HoldsTable bytes.now schema.now cells.items)) }
    ensures none { IfOk result (λ answer. IfNone answer ((cells : List (List ℕ)) → ¬ IsSmallFile bytes.now schema.now cells)) }
{
    if bytes.len() != 2 * PAGE_SIZE || !is_small_header(bytes) {
        return Ok(None);
    }
    let (first, second) = bytes.split_at(PAGE_SIZE);
    if !has_schema(alloc, first, schema)? {
        return Ok(None);
    }
    read_page(alloc, second, 2)
}
