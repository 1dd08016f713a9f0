//! What the updater's seven files are, and what each call on a disk makes of them.
//!
//! A crate of definitions. Crates above cite, from `specs/`:
//!
//! - `Files`: the files as a map from names to bytes, and what each call that ends well leaves;
//! - `Names`: how files and calls are printed;
//! - `Faults`: what a call that fails leaves;
//! - `Records`: what a disk keeps of its files, and the images that a crash may leave of it;
//! - `Trails`: the moments of a disk, and the images since one of them;
//! - `Steps`: what each call makes of the record and of the trail.
//!
//! The modules of laws beside them say what follows: the rules of a crash are promised by the functions of `crash_laws`.
#![tactic(auto)]

ghost use Rattle.std.specs.Prelude.{◌≡◌, ◌≤◌, ◌++◌, length, List, ℕ, Option};
ghost use Rattle.byte_fields.specs.Bytes.{overwritten};
ghost use Rattle.file_spec.specs.Files.{Files, with_file};
ghost use Rattle.byte_fields.specs.BytesLaws.{overwritten-end};
ghost use Rattle.file_spec.specs.FilesLaws.{with_file-again};
ghost use Rattle.common_spec.specs.Told.{Leads};

/// The files of one update, all in one folder.
#[derive(Clone, Copy, Debug, PartialEq, Eq)]
pub enum FileName {
    /// The database that is updated.
    Target,
    /// The log while it is written, hidden from readers: the target's path with `-oal`.
    Oal,
    /// The target's write-ahead log: its path with `-wal`.
    Wal,
    /// The target's rollback journal: its path with `-journal`.
    Journal,
    /// The database that holds the prepared rows.
    Rbu,
    /// The saved position of an update.
    State,
    /// The position while it is saved: the state's path with `-temp`.
    StateTemp,
}

impl FileName {
    ghost use Rattle.file_spec.specs.Names.{file_word};

    /// The word that is printed, of at most 9 bytes.
    pub fn word(self) -> &'static str
        ensures word { result.now ≡ file_word self }
        ensures short { length result.now ≤ 9 }
    {
        match self {
            FileName::Target => "Target",
            FileName::Oal => "Oal",
            FileName::Wal => "Wal",
            FileName::Journal => "Journal",
            FileName::Rbu => "Rbu",
            FileName::State => "State",
            FileName::StateTemp => "StateTemp",
        }
    }
}

/// The calls on a disk.
#[derive(Clone, Copy, Debug, PartialEq, Eq)]
pub enum DiskCall {
    Exists,
    Len,
    Read,
    Write,
    SetLen,
    Sync,
    Create,
    Remove,
    Rename,
    SyncFolder,
}

impl DiskCall {
    ghost use Rattle.file_spec.specs.Names.{call_word};

    /// The word that is printed, of at most 10 bytes.
    pub fn word(self) -> &'static str
        ensures word { result.now ≡ call_word self }
        ensures short { length result.now ≤ 10 }
    {
        match self {
            DiskCall::Exists => "Exists",
            DiskCall::Len => "Len",
            DiskCall::Read => "Read",
            DiskCall::Write => "Write",
            DiskCall::SetLen => "SetLen",
            DiskCall::Sync => "Sync",
            DiskCall::Create => "Create",
            DiskCall::Remove => "Remove",
            DiskCall::Rename => "Rename",
            DiskCall::SyncFolder => "SyncFolder",
        }
    }
}

/// Of two changes under one name the later counts, and a write at the end of a file appends.
pub fn writes_join()
    ensures again { (files : Files) (name : FileName) (a b : Option (List ℕ)) →
        with_file (with_file files name a) name b ≡ with_file files name b }
    ensures append { (old bytes : List ℕ) → overwritten old (length old) bytes ≡ old ++ bytes }
{}

/// Two calls that are known exactly leave what the second makes of what the first made.
pub fn steps_join()
    ensures { (h k : Files → Files) (a b c : Option Files) → Leads (λ f g. g ≡ h f) a b → Leads (λ f g. g ≡ k f) b c →
        Leads (λ f g. g ≡ k (h f)) a c }
{}

mod crash_laws;
mod crash_worked;
mod worked;

pub use crash_laws::{
    crash_leaves_one_image, failed_calls_leave, names_are_of_one_moment,
    pending_ranges_hold_any_bytes, records_show_files, syncs_make_stable, trails_go_on,
};
pub use crash_worked::{
    worked_create_and_rename, worked_cut_and_growth, worked_failed_names, worked_failed_write,
    worked_write_over, worked_write_past_end,
};
pub use worked::{worked_faults, worked_names, worked_steps};
