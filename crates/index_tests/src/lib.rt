//! Tests of the order of index entries, and of entries that are put into index trees, looked for in them and deleted from them, over pages in memory.
#![tactic(auto)]

#[cfg(test)]
mod entries;
#[cfg(test)]
mod entry_deletes;
#[cfg(test)]
mod entry_puts;
#[cfg(test)]
mod lookups;
#[cfg(test)]
mod orders;
#[cfg(test)]
mod stores;
