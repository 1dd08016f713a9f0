//! SQLite's variable-length integers, and the cells of all four kinds of b-tree page (Database File Format, section 1.6).
//!
//! The layer above reads and writes by `read_varint`, `write_varint`, `read_cell` and `write_cell`, appends varints by `push_varint`, asks `varint_length` and `cell_length` for the room that the others need, and `local_size` for how much of a payload a cell keeps. What bytes mean is said by `Varint` and `Cell` in the `specs/` of `format_spec`.
//!
//! This crate's `specs/` have `Cells`, for bytes that begin with a cell and views that can be written, and the laws of all these definitions, `VarintLaws` and `CellLaws`, which proofs above cite. The functions without parameters promise the main ones: `varint_has_one_reading`, `varint_is_shortest`, `cell_has_one_reading` and `written_cell_is_read`.
#![tactic(auto)]

mod cell;
mod varint;

pub use cell::{
    CellFault, CellView, PAYLOAD_LIMIT, PageKind, cell_has_one_reading, cell_length, local_size,
    read_cell, write_cell, written_cell_is_read,
};
pub use varint::{
    push_varint, read_varint, varint_has_one_reading, varint_is_shortest, varint_length,
    write_varint,
};
