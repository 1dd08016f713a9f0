// Reads the rows of a small file.
ghost use Rattle.std.specs.Prelude.{◌≡◌, ◌↔◌, IfOk, IsTrue, length, map, option_map};
ghost use Rattle.std.specs.List.{All, AllZip};
ghost use Rattle.common_spec.specs.Reading.{Reads, OrNone};
ghost use Rattle.small_spec.specs.SmallFile.{IsSmall, IsRisingBy};
ghost use Rattle.small_file.specs.Pages.{IsPlaced, cell_of};

use crate::file::read_table;
use crate::page::{PAGE_SIZE, PlacedCell};
use crate::row::SmallRow;
use std::alloc::{AllocError, Global};

// The rows of the cells, or `None` where one is no row of the table.
fn rows_of<R: SmallRow>(
    alloc: Global,
    page: &[u8],
    cells: &[PlacedCell],
) -> Result<Option<Vec<R>>, AllocError>
    requires long { length page.now ≡ 4096 }
    requires placed { All (IsPlaced page.now) cells.now }
    ensures { IfOk result (λ rows. Reads (OrNone (AllZip R.table.IsRow (map (cell_of page.now) cells.now))) (option_map (λ v. v.items) rows)) }
{
    let mut rows = Vec::new(alloc);
    for cell in cells {
        let Some(row) = R::read(alloc, page, cell)? else {
            return Ok(None);
        };
        rows.push(row)?;
    }
    Ok(Some(rows))
}

// Whether each rowid is below the next one.
fn is_rising<R: SmallRow>(rows: &[R]) -> bool
    ensures { IsTrue result ↔ IsRisingBy R.table.rowid rows.now }
{
    for i in 1..rows.len() {
        if rows[i].rowid() <= rows[i - 1].rowid() {
            return false;
        }
    }
    true
}

/// The rows of a small file of this table, in order of their rowids, or `None` where the bytes are not one.
pub fn read_rows<R: SmallRow>(alloc: Global, bytes: &[u8]) -> Result<Option<Vec<R>>, AllocError>
    ensures { IfOk result (λ rows. Reads (OrNone (IsSmall R.table bytes.now)) (option_map (λ v. v.items) rows)) }
{
    let Some(cells) = read_table(alloc, bytes, R::schema())? else {
        return Ok(None);
    };
    let Some(rows) = rows_of(alloc, &bytes[PAGE_SIZE..], &cells)? else {
        return Ok(None);
    };
    if !is_rising(&rows) {
        return Ok(None);
    }
    Ok(Some(rows))
}
