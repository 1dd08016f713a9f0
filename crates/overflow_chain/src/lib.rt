//! Overflow chains (Database File Format, section 1.6).
//!
//! The layer above asks `read_chain` for the bytes of a chain, and `chain_pages` for its pages, and writes one by `write_chain`, or page by page by `fill`. What is a chain, and where one breaks, is said by `Chains` in the `specs/` of `page_spec`, and what a written one has by `WrittenChains`.
#![tactic(auto)]

mod fault;
mod keeper;
mod reading;
mod writing;

pub use fault::ChainFault;
pub use reading::{chain_pages, pages_for, read_chain};
pub use writing::{fill, write_chain};
