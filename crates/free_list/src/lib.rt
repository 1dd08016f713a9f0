//! The freelist (Database File Format, section 1.5).
//!
//! The layer above takes a page by `allocate` and gives one back by `release`. What a freelist is, is said by `Freelists` in the `specs/` of `page_spec`; `Answers` here says which page is taken and when a call is refused, and `Steps` what the pages are afterwards: which are free, counted, and which stay.
#![tactic(auto)]

mod allocating;
mod fault;
mod pages;
mod releasing;

pub use allocating::allocate;
pub use fault::FreeFault;
pub use releasing::release;
