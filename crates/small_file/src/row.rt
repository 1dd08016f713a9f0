// What a row of a small table is, for each of the two tables.
ghost use Rattle.std.specs.Prelude.{◌≡◌, length, IfOk};
ghost use Rattle.common_spec.specs.Reading.{Reads, OrNone};
ghost use Rattle.small_spec.specs.SmallFile.{schema_record};
ghost use Rattle.small_file.specs.Pages.{IsPlaced, cell_of};

use crate::page::PlacedCell;
use std::alloc::{AllocError, Global};

/// A row of a small table.
pub trait SmallRow: Drop {
    ghost use Rattle.small_spec.specs.SmallFile.{Table};

    ghost table: { Table Self };

    /// The record of the table's row in the schema.
    fn schema() -> &'static [u8]
        ensures { result.now ≡ schema_record table.name table.text };

    /// The row of a cell, or `None` where the cell is no row of the table.
    fn read(alloc: Global, page: &[u8], cell: &PlacedCell) -> Result<Option<Self>, AllocError>
        requires long { length page.now ≡ 4096 }
        requires placed { IsPlaced page.now cell.now }
        ensures { IfOk result (Reads (OrNone (table.IsRow (cell_of page.now cell.now)))) };

    /// The rowid of the row in the table.
    fn rowid(&self) -> i64
        ensures { result ≡ table.rowid self.now };
}
