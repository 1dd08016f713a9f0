//! Bytes of a file, and numbers in them: how they are read and written at a place, the most significant byte first.
//!
//! Crates above call `u16_at`, `put_u16` and their kin, and cite from `specs/`:
//!
//! - `Bytes`: bytes that are made longer or shorter, written over, and taken out;
//! - `Numbers`: the number at a place, and the page with a number (Database File Format, sections 1.2 and 1.3);
//! - `Fields`: several numbers written at their places.
//!
//! `BytesLaws`, `NumbersLaws` and `FieldsLaws` say what follows from them.
#![tactic(auto)]

mod numbers;
mod worked;

pub use numbers::{put_u8, put_u16, put_u32, u8_at, u16_at, u32_at};
pub use worked::{worked_bytes, worked_numbers};
