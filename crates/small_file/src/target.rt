// The rows of a target.
ghost use Rattle.std.specs.Prelude.{◌≡◌, length, IfOk};
ghost use Rattle.small_spec.specs.SmallFile.{target_table};
ghost use Rattle.small_file.specs.Pages.{IsPlaced, cell_of};

use crate::file::payload;
use crate::page::PlacedCell;
use crate::record::is_target_record;
use crate::row::SmallRow;
use rbu_value::Bytes;
use small_spec::TargetRow;
use std::alloc::{AllocError, Global};

// The row of a cell, with a copy of its bytes.
fn copy_row(alloc: Global, page: &[u8], cell: &PlacedCell) -> Result<TargetRow, AllocError>
    requires long { length page.now ≡ 4096 }
    requires placed { IsPlaced page.now cell.now }
    ensures { IfOk result (λ row. row ≡ record { rowid = cell.now.view.rowid; cell = cell_of page.now cell.now }) }
{
    let end = cell.place + cell.view.size as usize;
    Ok(TargetRow {
        rowid: cell.view.rowid,
        cell: Bytes::of(alloc, &page[cell.place..end])?,
    })
}

impl SmallRow for TargetRow {
    ghost table = { target_table };

    #[tactic(auto, unfolding(format_spec::specs::Record::canonical_record, format_spec::specs::Varint::varint, format_spec::specs::Varint::varint_front))]
    fn schema() -> &'static [u8] {
        b"\x06\x17\x11\x11\x01\x5ftablet1t1\x02CREATE TABLE t1(a INTEGER PRIMARY KEY, b)".as_slice()
    }

    fn read(
        alloc: Global,
        page: &[u8],
        cell: &PlacedCell,
    ) -> Result<Option<TargetRow>, AllocError> {
        let Some(bytes) = payload(page, cell) else {
            return Ok(None);
        };
        if !is_target_record(alloc, bytes)? {
            return Ok(None);
        }
        Ok(Some(copy_row(alloc, page, cell)?))
    }

    fn rowid(&self) -> i64 {
        self.rowid
    }
}
