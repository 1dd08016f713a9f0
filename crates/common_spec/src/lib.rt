//! Words that every crate shares, and that speak of no file and no format.
//!
//! A crate of definitions. Crates above cite, from `specs/`:
//!
//! - `Maps`: maps of every key, and a change at one key; files, pages and places are such maps;
//! - `Told`: what a device that tells its state goes on to tell, and what a call finds that only reads;
//! - `Counts`: counts that are kept in 64 bits, and what a call owes of the count of a device's faults;
//! - `Reading`: the one word for readers, `Reads`: what is answered has a property, and whatever has it is the answer.
//!
//! `MapsLaws`, `ToldLaws` and `ReadingLaws` say what follows from them. The functions without parameters promise the main laws.
#![tactic(auto)]

mod worked;

pub use worked::{worked_counts, worked_maps, worked_reading, worked_told};
