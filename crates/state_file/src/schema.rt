// The first page of a state file, which is the same in all.
ghost use Rattle.std.specs.Prelude.{◌≡◌, ◌≤◌, ◌++◌, ◌∷◌, [], length, drop};
ghost use Rattle.std.specs.List.{flat_map};
ghost use Rattle.byteorder.specs.Endian.{big_bytes};
ghost use Rattle.format_spec.specs.Page.{packed_header, places_below};
ghost use Rattle.state_file.specs.StateFile.{new_header, schema_cell as cell_of_schema, first_page};

use crate::rows::put_before;

// The database header, the header of the schema's page, and the place of its cell.
#[tactic(auto, unfolding(format_spec::specs::Record::canonical_record, format_spec::specs::Cell::table_leaf_cell, format_spec::specs::Varint::varint, format_spec::specs::Varint::varint_front))]
fn front() -> &'static [u8]
    ensures long { length result.now ≡ 110 }
    ensures bytes { result.now ≡ new_header 2 ++ (packed_header 4096 (cell_of_schema ∷ []) ++ flat_map (big_bytes 2) (places_below 4096 (cell_of_schema ∷ []))) }
{
    b"SQLite format 3\x00\x10\x00\x01\x01\x00\x40\x20\x20\x00\x00\x00\x01\x00\x00\x00\x02\x00\x00\x00\x00\x00\x00\x00\x00\x00\x00\x00\x01\x00\x00\x00\x04\x00\x00\x00\x00\x00\x00\x00\x00\x00\x00\x00\x01\x00\x00\x00\x00\x00\x00\x00\x00\x00\x00\x00\x00\x00\x00\x00\x00\x00\x00\x00\x00\x00\x00\x00\x00\x00\x00\x00\x00\x00\x00\x00\x00\x00\x00\x00\x01\x00\x2d\xe2\x18\x0d\x00\x00\x00\x01\x0f\xb0\x00\x0f\xb0".as_slice()
}

// The row of the schema.
#[tactic(auto, unfolding(format_spec::specs::Record::canonical_record, format_spec::specs::Cell::table_leaf_cell, format_spec::specs::Varint::varint, format_spec::specs::Varint::varint_front))]
fn schema_cell() -> &'static [u8]
    ensures long { length result.now ≡ 80 }
    ensures bytes { result.now ≡ cell_of_schema }
{
    b"\x4e\x01\x06\x17\x1f\x1f\x01\x6dtablerbu_staterbu_state\x02CREATE TABLE rbu_state(k INTEGER PRIMARY KEY, v)".as_slice()
}

// Writes bytes over the first ones.
fn put_first(page: &mut [u8], bytes: &[u8])
    requires { length bytes.now ≤ length page.old }
    ensures { page.new ≡ bytes.now ++ drop (length bytes.now) page.old }
{
    page[..bytes.len()].copy_from_slice(bytes);
}

/// Writes the first page.
pub fn write_first_page(page: &mut [u8])
    requires { length page.old ≡ 4096 }
    ensures { page.new ≡ first_page 4096 }
{
    page.fill(0);
    let _start = put_before(page, 4096, schema_cell());
    put_first(page, front());
}
