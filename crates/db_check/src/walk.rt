// What a walk over a tree knows of it, and of what it has found of it.
ghost use Rattle.std.specs.Prelude.{[]};
ghost use Rattle.db_check.specs.declared.walk.CheckedTree.{CheckedTree};
ghost use Rattle.db_check.specs.Compares.{IsComparison};

use owned_list::OwnedList;
use rbu_value::{Collation, Value};
use tree_walk::TreeKind;

/// What the members of a tree are.
#[derive(Clone, Copy, Debug, PartialEq, Eq)]
pub enum Members {
    /// Rows of a table in the profile.
    Rows,
    /// Entries of a plain index.
    Entries,
    /// Of these nothing is known.
    Any,
}

/// A tree that is gone through.
#[derive(Drop)]
pub struct CheckedTree<'a> {
    pub kind: TreeKind,
    pub members: Members,
    /// The collation of each column of a plain index, and whether it descends.
    pub columns: OwnedList<(Collation, bool)>,
    /// Whether a plain index is unique.
    pub unique: bool,
    /// The entries of the rows of its table, in order.
    pub expected: &'a [OwnedList<Value>],
}

/// How the entries of a plain index that were found so far compare with those of the rows of its table.
#[derive(Drop)]
pub struct Comparison {
    /// The last entry that was found.
    pub last: Option<OwnedList<Value>>,
    /// How many entries agree, up to the first that disagrees.
    pub agreed: usize,
    /// The rowid of the first entry that disagrees, if there is one by now.
    pub told: Option<i64>,
}

impl Comparison {
    /// Where no entry was found yet.
    pub fn new() -> Comparison
        ensures { (tree : CheckedTree) → IsComparison tree [] result }
    {
        Comparison {
            last: None,
            agreed: 0,
            told: None,
        }
    }
}

/// What was found of a tree so far.
#[derive(Drop)]
pub struct Progress {
    /// How many pages the first leaf stands from the root, both counted.
    pub leaf: Option<u32>,
    /// What was found of the entries of a plain index.
    pub compared: Comparison,
}
