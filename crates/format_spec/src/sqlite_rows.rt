// The definitions, computed on bytes that SQLite 3.40.1 wrote, and on small rows that were worked out by hand.
ghost use Rattle.std.specs.Prelude.{◌≡◌, pos, [], ◌∷◌, ◌++◌, false, replicate, codes};
ghost use Rattle.format_spec.specs.declared.PageKind.TheVariants.{IndexInterior, TableLeaf};
ghost use Rattle.format_spec.specs.Varint.{IsVarint};
ghost use Rattle.format_spec.specs.Page.{IsPage};
ghost use Rattle.format_spec.specs.Header.{HasMagic, page_size, page_bytes, write_version, read_version, reserved, max_fraction, min_fraction, leaf_fraction, change_counter, pages, freelist_trunk, freelist_pages, schema_cookie, schema_format, largest_root, text_encoding, version_valid_for};
ghost use Rattle.format_spec.specs.PageMap.{pages_of, page_count};
ghost use Rattle.format_spec.specs.Log.{Frame, log_header, frame_header, IsLog, IsOverlay};
ghost use Rattle.format_spec.specs.LittleLog.{little_page, little_frame, little_salt, little_header, little_frame_header, little_log};

/// Spellings of 300, of 1 in two bytes, and of the greatest number in nine.
pub fn worked_spellings()
    ensures shortest { IsVarint (0x82 ∷ 0x2c ∷ []) 300 }
    ensures longer { IsVarint (0x80 ∷ 0x01 ∷ []) 1 }
    ensures nine { IsVarint (0xff ∷ 0xff ∷ 0xff ∷ 0xff ∷ 0xff ∷ 0xff ∷ 0xff ∷ 0xff ∷ 0xff ∷ []) 18446744073709551615 }
{}

/// A database header whose fields differ, spelled field by field after the table of section 1.3.
pub fn worked_header()
    ensures { let bytes = codes "SQLite format 3" ++ 0 ∷ 0x04 ∷ 0x00 ∷ 0x02 ∷ 0x01 ∷ 0x08 ∷ 0x40 ∷ 0x21 ∷ 0x20 ∷
        0x01 ∷ 0x02 ∷ 0x03 ∷ 0x04 ∷ 0x00 ∷ 0x00 ∷ 0x00 ∷ 0x05 ∷ 0x00 ∷ 0x00 ∷ 0x00 ∷ 0x02 ∷ 0x00 ∷ 0x00 ∷ 0x00 ∷ 0x03 ∷
        0x0b ∷ 0x0c ∷ 0x0d ∷ 0x0e ∷ 0x00 ∷ 0x00 ∷ 0x00 ∷ 0x04 ∷ 0xff ∷ 0xff ∷ 0xf8 ∷ 0x30 ∷ 0x00 ∷ 0x00 ∷ 0x00 ∷ 0x07 ∷
        0x00 ∷ 0x00 ∷ 0x00 ∷ 0x01 ∷ 0x00 ∷ 0x00 ∷ 0x00 ∷ 0x09 ∷ 0x00 ∷ 0x00 ∷ 0x00 ∷ 0x00 ∷ 0x0f ∷ 0x10 ∷ 0x11 ∷ 0x12 ∷
        replicate 20 0 ++ 0x01 ∷ 0x02 ∷ 0x03 ∷ 0x05 ∷ 0x00 ∷ 0x2e ∷ 0x63 ∷ 0x01 ∷ [] in
        HasMagic bytes × (page_size bytes ≡ 1024) × (write_version bytes ≡ 2) × (read_version bytes ≡ 1) × (reserved bytes ≡ 8)
        × (max_fraction bytes ≡ 64) × (min_fraction bytes ≡ 33) × (leaf_fraction bytes ≡ 32) × (change_counter bytes ≡ 0x01020304)
        × (pages bytes ≡ 5) × (freelist_trunk bytes ≡ 2) × (freelist_pages bytes ≡ 3) × (schema_cookie bytes ≡ 0x0b0c0d0e)
        × (schema_format bytes ≡ 4) × (largest_root bytes ≡ 7) × (text_encoding bytes ≡ 1) × (version_valid_for bytes ≡ 0x01020305) }
{}

/// The header of a log that SQLite wrote on a machine with the least significant byte first, for pages of 512 bytes.
#[tactic(auto, unfolding(crate::specs::Log::log_header))]
pub fn worked_little_log_header()
    ensures { log_header false 512 0 little_salt ≡ little_header }
{}

/// The frame behind it: page 2 with the row (1, 'one'), a commit of two pages.
#[tactic(auto, unfolding(crate::specs::Log::frame_header))]
pub fn worked_frame_header()
    ensures { frame_header false little_salt (0x63072804, 0x46a28f8c) 2 2 little_page ≡ little_frame_header }
{}

/// Both are a log with that frame.
pub fn worked_log()
    ensures { IsLog little_log 512 (little_frame ∷ []) }
{}

/// A file of five bytes, in pages of two, under three frames, of which the last stands behind the last commit; what the pages are past the
/// count does not matter.
pub fn worked_overlay()
    ensures logged { let one : Frame = record { number = 2; commit = 0; page = 9 ∷ 9 ∷ [] } in
        let two : Frame = record { number = 1; commit = 3; page = 7 ∷ 8 ∷ [] } in
        let three : Frame = record { number = 1; commit = 0; page = 5 ∷ 5 ∷ [] } in
        IsOverlay (pages_of 2 2 (1 ∷ 2 ∷ 3 ∷ 4 ∷ 5 ∷ [])) (one ∷ two ∷ three ∷ []) (pages_of 2 3 (7 ∷ 8 ∷ 9 ∷ 9 ∷ 5 ∷ 0 ∷ 6 ∷ 6 ∷ [])) }
    ensures uncommitted { let one : Frame = record { number = 2; commit = 0; page = 9 ∷ 9 ∷ [] } in
        IsOverlay (pages_of 2 2 (1 ∷ 2 ∷ 3 ∷ 4 ∷ 5 ∷ [])) (one ∷ []) (pages_of 2 2 (1 ∷ 2 ∷ 3 ∷ 4 ∷ [])) }
{}

/// A database file by itself: the page size and the size in pages of its header, or as many whole pages as it has.
pub fn worked_file_pages()
    ensures little { page_bytes (replicate 16 0 ++ 0x02 ∷ 0x00 ∷ []) ≡ 512 }
    ensures greatest { page_bytes (replicate 16 0 ++ 0x00 ∷ 0x01 ∷ []) ≡ 65536 }
    ensures valid { page_count (replicate 24 0 ++ 0 ∷ 0 ∷ 0 ∷ 7 ∷ 0 ∷ 0 ∷ 0 ∷ 3 ∷ replicate 60 0 ++ 0 ∷ 0 ∷ 0 ∷ 7 ∷ []) ≡ 3 }
    ensures stale { page_count (replicate 16 0 ++ 0 ∷ 16 ∷ replicate 6 0 ++ 0 ∷ 0 ∷ 0 ∷ 7 ∷ 0 ∷ 0 ∷ 0 ∷ 3 ∷ replicate 60 0 ++ 0 ∷ 0 ∷ 0 ∷ 6 ∷ []) ≡ 6 }
{}

/// A table leaf with the rows (1, 'one') and (2, 'two'), and a freeblock where SQLite deleted a row between them.
pub fn worked_table_leaf()
    ensures { let one = 6 ∷ 1 ∷ 3 ∷ 0 ∷ 0x13 ∷ 0x6f ∷ 0x6e ∷ 0x65 ∷ [] in
        let two = 6 ∷ 2 ∷ 3 ∷ 0 ∷ 0x13 ∷ 0x74 ∷ 0x77 ∷ 0x6f ∷ [] in
        IsPage (13 ∷ 0x01 ∷ 0xee ∷ 0 ∷ 2 ∷ 0x01 ∷ 0xe6 ∷ 0 ∷ 0x01 ∷ 0xe6 ∷ 0x01 ∷ 0xf8 ∷ replicate 474 0
        ++ one ++ 0 ∷ 0 ∷ 0 ∷ 0x0a ∷ 0 ∷ 0 ∷ 0 ∷ 0 ∷ 0 ∷ 0 ∷ two) 2 512 TableLeaf (one ∷ two ∷ []) 0 }
{}

/// An interior page of an index with one entry between its children 4 and 5.
pub fn worked_index_interior()
    ensures { let entry = 0 ∷ 0 ∷ 0 ∷ 4 ∷ 7 ∷ 3 ∷ 0x13 ∷ 1 ∷ 0x6b ∷ 0x32 ∷ 0x36 ∷ 0x1a ∷ [] in
        IsPage (2 ∷ 0 ∷ 0 ∷ 0 ∷ 1 ∷ 0x01 ∷ 0xf4 ∷ 0 ∷ 0 ∷ 0 ∷ 0 ∷ 5 ∷ 0x01 ∷ 0xf4 ∷ replicate 486 0 ++ entry) 3 512 IndexInterior (entry ∷ []) 5 }
{}
