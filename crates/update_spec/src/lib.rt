//! What an update is: its outcome, what a reader sees of it, and what the program says of it.
//!
//! A crate of definitions, and of the types that they speak of. Crates above cite, from `specs/`:
//!
//! - `Update`: an update, as the outcome of files and the new database that it makes; and what a call leaves of the files;
//! - `View`: what a reader of the files sees, the pages of the target overlaid by its log;
//! - `Crashes`: what a crash while a command runs may leave, and what one at its end; `images_keep_view` promises which
//!   disks show one database whatever a crash leaves;
//! - `ViewLaws`: those are one list of pages, as `view_is_one` promises;
//! - `Answer`: which answer the files and words have;
//! - `Words` and `Text`: the words of each command, and the text of each answer;
//! - `WordsLaws`: words ask for one thing, as `words_ask_for_one_thing` promises.
#![tactic(auto)]

use file_spec::{DiskCall, FileName};
use rbu_value::Bytes;
use refusal::Refusal;

/// The commands, with the numbers that their words give.
#[derive(Clone, Copy, Debug, PartialEq, Eq)]
pub enum Command {
    /// Starts or resumes the update, and makes at most so many units of work.
    Apply { steps: u32 },
    /// Prints the state file.
    State,
    /// Tests that the view is sound.
    Check,
    /// Prints a table of the view.
    Dump,
    /// Writes a generated target and RBU database.
    Make { count: u32, seed: u32 },
    /// Writes both, updates until the work is done, and checks.
    Trial { count: u32, seed: u32, steps: u32 },
    /// Updates while readers scan the file.
    Beside { readers: u32, reads: u32 },
}

/// What a call of `apply` comes to where no device fails and memory suffices.
#[derive(Drop)]
pub enum Outcome {
    /// The update is done.
    Done,
    /// A prepared insert has the key of an old row of this table. The rowid is that of the prepared row.
    KeyPresent { table: Bytes, data_rowid: i64 },
    /// The input is refused.
    Refused { refusal: Refusal },
}

/// What a command comes to.
#[derive(Drop)]
pub enum Answer {
    /// The words are those of no command.
    Usage,
    /// The command ended by itself.
    Ended { outcome: Outcome },
    /// The command did its work, which is to print these lines.
    Printed { text: Bytes },
    /// A call on the disk failed.
    Fault { file: FileName, call: DiskCall },
    /// Memory ran out.
    NoMemory,
}

mod laws;
mod worked;

pub use laws::{images_keep_view, view_is_one, words_ask_for_one_thing};
pub use worked::{worked_lines, worked_statuses, worked_view, worked_words};
