// The definitions, computed on rows that were worked out apart from them.
ghost use Rattle.std.specs.Prelude.{◌≡◌, ◌-◌, ◌^◌, ◌≤◌, pos, [], ◌∷◌, ◌++◌, take, drop, true};
ghost use Rattle.rbu_value.specs.declared.value.Value.TheVariants.{Null, Int, Text};
ghost use Rattle.format_spec.specs.declared.PageKind.TheVariants.{IndexInterior, TableInterior, IndexLeaf, TableLeaf};
ghost use Rattle.format_spec.specs.Sizes.{size_field, size_from_field};
ghost use Rattle.format_spec.specs.Varint.{varint};
ghost use Rattle.format_spec.specs.Record.{canonical_record, header_size_bytes};
ghost use Rattle.format_spec.specs.Cell.{local_size, overflow_size, cell_bytes, table_leaf_cell};
ghost use Rattle.format_spec.specs.Page.{packed_header, packed_leaf};
ghost use Rattle.format_spec.specs.Log.{log_header};

/// The shortest varints at the edges of their sizes.
#[tactic(auto, unfolding(crate::specs::Varint::varint, crate::specs::Varint::varint_front))]
pub fn worked_varints()
    ensures one { varint 127 ≡ 0x7f ∷ [] }
    ensures two { varint 128 ≡ 0x81 ∷ 0 ∷ [] }
    ensures eight { varint 72057594037927935 ≡ 0xff ∷ 0xff ∷ 0xff ∷ 0xff ∷ 0xff ∷ 0xff ∷ 0xff ∷ 0x7f ∷ [] }
    ensures nine { varint (18446744073709551615) ≡ 0xff ∷ 0xff ∷ 0xff ∷ 0xff ∷ 0xff ∷ 0xff ∷ 0xff ∷ 0xff ∷ 0xff ∷ [] }
{}

/// The record of (NULL, 'one', 10).
#[tactic(auto, unfolding(crate::specs::Varint::varint, crate::specs::Varint::varint_front, crate::specs::Record::canonical_record))]
pub fn worked_record()
    ensures { canonical_record 4 (Null ∷ Text (111 ∷ 110 ∷ 101 ∷ []) ∷ Int (pos 10) ∷ [])
        ≡ 0x04 ∷ 0x00 ∷ 0x13 ∷ 0x01 ∷ 0x6f ∷ 0x6e ∷ 0x65 ∷ 0x0a ∷ [] }
{}

/// The table leaf's cell of that record at rowid 1, and a row of the first path.
#[tactic(auto, unfolding(crate::specs::Varint::varint, crate::specs::Varint::varint_front, crate::specs::Record::canonical_record, crate::specs::Cell::table_leaf_cell))]
pub fn worked_cell()
    ensures row { table_leaf_cell (pos 1) (canonical_record 4 (Null ∷ Text (111 ∷ 110 ∷ 101 ∷ []) ∷ Int (pos 10) ∷ []))
        ≡ 0x08 ∷ 0x01 ∷ 0x04 ∷ 0x00 ∷ 0x13 ∷ 0x01 ∷ 0x6f ∷ 0x6e ∷ 0x65 ∷ 0x0a ∷ [] }
    ensures first_path { table_leaf_cell (pos 3) (canonical_record 4 (Null ∷ Text (100 ∷ 114 ∷ 101 ∷ 105 ∷ []) ∷ []))
        ≡ 0x07 ∷ 0x03 ∷ 0x03 ∷ 0x00 ∷ 0x15 ∷ 0x64 ∷ 0x72 ∷ 0x65 ∷ 0x69 ∷ [] }
{}

/// The other kinds' cells: child 5 at rowid 300, and a payload of five bytes on a leaf and over child 7.
#[tactic(auto, unfolding(crate::specs::Varint::varint, crate::specs::Varint::varint_front, crate::specs::Cell::cell_bytes, crate::specs::Cell::index_cell_bytes))]
pub fn worked_other_cells()
    ensures table_interior { cell_bytes TableInterior (record { size = 6; rowid = pos 300; child = 5; payload = 0; local_at = 0; local = 0; overflow = 0 }) []
        ≡ 0x00 ∷ 0x00 ∷ 0x00 ∷ 0x05 ∷ 0x82 ∷ 0x2c ∷ [] }
    ensures index_leaf { cell_bytes IndexLeaf (record { size = 6; rowid = pos 0; child = 0; payload = 5; local_at = 1; local = 5; overflow = 0 }) (1 ∷ 2 ∷ 3 ∷ 4 ∷ 5 ∷ [])
        ≡ 0x05 ∷ 0x01 ∷ 0x02 ∷ 0x03 ∷ 0x04 ∷ 0x05 ∷ [] }
    ensures index_interior { cell_bytes IndexInterior (record { size = 10; rowid = pos 0; child = 7; payload = 5; local_at = 5; local = 5; overflow = 0 }) (1 ∷ 2 ∷ 3 ∷ 4 ∷ 5 ∷ [])
        ≡ 0x00 ∷ 0x00 ∷ 0x00 ∷ 0x07 ∷ 0x05 ∷ 0x01 ∷ 0x02 ∷ 0x03 ∷ 0x04 ∷ 0x05 ∷ [] }
{}

/// How much of a payload a table leaf and the pages of an index keep, at 512 bytes, and a table leaf at 65536.
pub fn worked_sizes()
    ensures whole { local_size TableLeaf 512 477 ≡ 477 }
    ensures least { local_size TableLeaf 512 478 ≡ 39 }
    ensures long { local_size TableLeaf 512 1048576 ≡ 64 }
    ensures index_whole { local_size IndexLeaf 512 102 ≡ 102 }
    ensures index_least { local_size IndexLeaf 512 103 ≡ 39 }
    ensures index_most { local_size IndexInterior 512 610 ≡ 102 }
    ensures index_over { local_size IndexInterior 512 611 ≡ 39 }
    ensures greatest_whole { local_size TableLeaf 65536 65501 ≡ 65501 }
    ensures greatest_over { local_size TableLeaf 65536 65502 ≡ 8199 }
    ensures one_overflow_page { overflow_size 8199 65502 ≡ 4 }
    ensures fits_that_page { 65502 - 8199 ≤ 65536 - 4 }
{}

/// The log's header for pages of 4096 bytes and the salt 1, 2.
#[tactic(auto, unfolding(crate::specs::Log::log_header))]
pub fn worked_log_header()
    ensures { log_header true 4096 0 (1, 2) ≡
        0x37 ∷ 0x7f ∷ 0x06 ∷ 0x83 ∷ 0x00 ∷ 0x2d ∷ 0xe2 ∷ 0x18 ∷ 0x00 ∷ 0x00 ∷ 0x10 ∷ 0x00 ∷ 0x00 ∷ 0x00 ∷ 0x00 ∷ 0x00 ∷
        0x00 ∷ 0x00 ∷ 0x00 ∷ 0x01 ∷ 0x00 ∷ 0x00 ∷ 0x00 ∷ 0x02 ∷ 0x16 ∷ 0x04 ∷ 0xe6 ∷ 0xd8 ∷ 0xbc ∷ 0xdd ∷ 0xce ∷ 0x93 ∷ [] }
{}

/// The log's header says the greatest page size in its four bytes.
#[tactic(auto, unfolding(crate::specs::Log::log_header))]
pub fn worked_greatest_log_header()
    ensures { take 4 (drop 8 (log_header true 65536 0 (1, 2))) ≡ 0x00 ∷ 0x01 ∷ 0x00 ∷ 0x00 ∷ [] }
{}

/// The field of the page size, for the greatest size and another.
pub fn worked_page_sizes()
    ensures greatest { size_from_field 1 ≡ 65536 }
    ensures other { size_from_field 4096 ≡ 4096 }
    ensures field_of_greatest { size_field 65536 ≡ 1 }
    ensures field_of_other { size_field 4096 ≡ 4096 }
{}

/// How many bytes the size of a record's header takes, at the edges.
pub fn worked_header_sizes()
    ensures one { header_size_bytes 126 ≡ 1 }
    ensures two { header_size_bytes 127 ≡ 2 }
    ensures five { header_size_bytes (2 ^ 35 - 6) ≡ 5 }
    ensures six { header_size_bytes (2 ^ 35 - 5) ≡ 6 }
    ensures eight { header_size_bytes (2 ^ 56 - 9) ≡ 8 }
    ensures nine { header_size_bytes (2 ^ 56 - 8) ≡ 9 }
{}

/// An empty table leaf of the greatest size: its content starts at 65536, which is written as 0.
pub fn worked_empty_leaf()
    ensures { packed_header 65536 [] ≡ 0x0d ∷ 0 ∷ 0 ∷ 0 ∷ 0 ∷ 0 ∷ 0 ∷ 0 ∷ [] }
{}

/// A table leaf of 32 bytes with cells of four and five bytes.
#[tactic(auto, unfolding(crate::specs::Page::packed_leaf))]
pub fn worked_page()
    ensures { packed_leaf 32 ((1 ∷ 2 ∷ 3 ∷ 4 ∷ []) ∷ (5 ∷ 6 ∷ 7 ∷ 8 ∷ 9 ∷ []) ∷ []) ≡
        13 ∷ 0 ∷ 0 ∷ 0 ∷ 2 ∷ 0 ∷ 23 ∷ 0 ∷ 0 ∷ 28 ∷ 0 ∷ 23 ∷ 0 ∷ 0 ∷ 0 ∷ 0 ∷
        0 ∷ 0 ∷ 0 ∷ 0 ∷ 0 ∷ 0 ∷ 0 ∷ 5 ∷ 6 ∷ 7 ∷ 8 ∷ 9 ∷ 1 ∷ 2 ∷ 3 ∷ 4 ∷ [] }
{}
