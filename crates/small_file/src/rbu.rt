// The prepared rows of an RBU database.
ghost use Rattle.small_spec.specs.SmallFile.{data_table};

use crate::file::payload;
use crate::page::PlacedCell;
use crate::record::read_prepared;
use crate::row::SmallRow;
use small_spec::PreparedRow;
use std::alloc::{AllocError, Global};

impl SmallRow for PreparedRow {
    ghost table = { data_table };

    #[tactic(auto, unfolding(format_spec::specs::Record::canonical_record, format_spec::specs::Varint::varint, format_spec::specs::Varint::varint_front))]
    fn schema() -> &'static [u8] {
        b"\x06\x17\x1b\x1b\x01\x5btabledata_t1data_t1\x02CREATE TABLE data_t1(a, b, rbu_control)".as_slice()
    }

    fn read(
        alloc: Global,
        page: &[u8],
        cell: &PlacedCell,
    ) -> Result<Option<PreparedRow>, AllocError> {
        let Some(bytes) = payload(page, cell) else {
            return Ok(None);
        };
        let Some((key, value)) = read_prepared(alloc, bytes)? else {
            return Ok(None);
        };
        Ok(Some(PreparedRow {
            data_rowid: cell.view.rowid,
            key,
            value,
        }))
    }

    fn rowid(&self) -> i64 {
        self.data_rowid
    }
}
