//! That a file is sound exactly where nothing of what is found in it is wrong.
//!
//! A crate of laws over the definitions of `database_spec`. `RightFindings` in `specs/` says when what is found is right after all that was found before it, which is what a check shows. `RightFilesLaws` and `SoundFilesLaws` have that a file is sound exactly where all is right, by `FoundTreesLaws` (a walk without a flaw is over a tree), `FoundFreelistsLaws` and `SubjectsLaws` (the trees are those of the catalog); `RightFindingsLaws` has that what is right is not wrong.
#![tactic(auto)]

mod laws;

pub use laws::{sound_files_are_right, sound_files_have_no_fault, walks_without_a_flaw_find_trees};
