//! SQLite's file formats as relations between bytes and what they stand for.
//!
//! A crate of definitions. Crates above cite, from `specs/`:
//!
//! - `Sizes`: the sizes that pages may have, and how many of their bytes may be used (sections 1.3.2 and 1.3.4);
//! - `Varint`: variable-length integers (section 1.6);
//! - `Record`: records and the canonical record of a list of values (section 2.1);
//! - `Cell`: the cells of b-tree pages, and how much of a payload they keep (section 1.6);
//! - `Page`: a b-tree page as a list of cells (section 1.6), and the page that is packed from its end;
//! - `Header`: the fields of the database header (section 1.3);
//! - `PageMap`: pages by their numbers beside a count, and those of a database file; in `PageMapLaws`, that only those up to the count matter;
//! - `Log`: the write-ahead log, its frames and checksums, and the overlay of pages by a log (section 4);
//! - `LogLaws`: a header with frames is a log, bytes are a log in one way, and the overlay of pages by its frames is one;
//! - `LittleLog`: a log that SQLite wrote.
//!
//! The functions without parameters promise the main laws, and that the definitions compute on worked rows.
#![tactic(auto)]

/// The kinds of b-tree page (Database File Format, section 1.6).
#[derive(Clone, Copy, Debug, PartialEq, Eq)]
pub enum PageKind {
    /// An interior page of an index's tree: type 2.
    IndexInterior,
    /// An interior page of a table's tree: type 5.
    TableInterior,
    /// A leaf of an index's tree: type 10.
    IndexLeaf,
    /// A leaf of a table's tree: type 13.
    TableLeaf,
}

/// What a cell holds, and where in the cell's bytes its payload lies. A field that its kind lacks is 0.
#[derive(Clone, Copy, Debug, PartialEq, Eq)]
pub struct CellView {
    /// The length of the cell in bytes.
    pub size: u32,
    /// The key of a table's row.
    pub rowid: i64,
    /// The number of the left child's page.
    pub child: u32,
    /// The length of the whole payload in bytes, at most 2147483647.
    pub payload: u64,
    /// Where in the cell the local part of the payload begins.
    pub local_at: u32,
    /// The length in bytes of the part of the payload that lies in the cell.
    pub local: u32,
    /// The number of the first overflow page, or 0.
    pub overflow: u32,
}

mod laws;
mod sqlite_rows;
mod worked;

pub use laws::{log_has_one_reading, overlay_has_one_result};
pub use sqlite_rows::{
    worked_file_pages, worked_frame_header, worked_header, worked_index_interior,
    worked_little_log_header, worked_log, worked_overlay, worked_spellings, worked_table_leaf,
};
pub use worked::{
    worked_cell, worked_empty_leaf, worked_greatest_log_header, worked_header_sizes,
    worked_log_header, worked_other_cells, worked_page, worked_page_sizes, worked_record,
    worked_sizes, worked_varints,
};
