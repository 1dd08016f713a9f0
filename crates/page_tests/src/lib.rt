//! Tests of pages as lists of cells, of the shares of a list of cells, of page stores, overflow chains and the freelist, of the pages that a writer of trees takes, of cursors over trees, and of rows that are put into tables and deleted from them, over pages in memory.
//!
//! They stand in a crate of their own, over the crates that they call, since a crate with tests is proved twice.
#![tactic(auto)]

#[cfg(test)]
mod chains;
#[cfg(test)]
mod cursors;
#[cfg(test)]
mod free_lists;
#[cfg(test)]
mod layouts;
#[cfg(test)]
mod overflow;
#[cfg(test)]
mod shares;
#[cfg(test)]
mod stores;
#[cfg(test)]
mod table_deletes;
#[cfg(test)]
mod table_puts;
