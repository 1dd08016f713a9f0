//! Numbered pages as relations between bytes and what they stand for.
//!
//! A crate of definitions. Crates above cite, from `specs/`:
//!
//! - `Pages`: pages by their numbers, the lock-byte page, and the numbers that a link may name (Database File Format, section 1.5);
//! - `Chains`: overflow chains, their bytes, and where one breaks (section 1.6);
//! - `WrittenChains`: overflow pages as they are written;
//! - `Freelists`: the freelist as a list of trunks with their leaf pages (section 1.5);
//! - `Counts`: how often a number stands in a list;
//! - `FreePages`: which pages have to stand somewhere, and how many may still be taken;
//! - `Rooms`: the room of cells in a page, its free bytes, and pages as they are written (section 1.6).
//!
//! The modules of laws, as `PlacesLaws` and `FreelistsLaws`, say what follows. The functions without parameters promise the main law, and that the definitions compute on worked rows.
#![tactic(auto)]

mod laws;
mod worked;

pub use laws::cells_fit;
pub use worked::{
    worked_chain, worked_free_pages, worked_freelist, worked_lock_byte_pages, worked_rooms,
    worked_written_chain,
};
