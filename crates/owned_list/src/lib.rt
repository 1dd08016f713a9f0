//! A list that owns its items, seen by contracts as the list of them.
//!
//! The layer above may use `OwnedList` for fields that definitions speak of: a `Vec` would be seen with its memory.
#![tactic(auto)]

ghost use Rattle.std.specs.Prelude.{◌≡◌};

use std::marker::Model;

/// A list of items.
#[derive(Drop)]
pub struct OwnedList<T> {
    items: Vec<T>,
}

impl<T> Model for OwnedList<T> {
    ghost use Rattle.std.specs.Prelude.{List};

    ghost Value = { List T };

    ghost view = { λ list. list.items.items };
}

impl<T> OwnedList<T> {
    /// The items of the vector. Takes no memory.
    pub fn from_vec(items: Vec<T>) -> OwnedList<T>
        ensures { result ≡ items.items }
    {
        OwnedList { items }
    }

    /// The items, lent.
    pub fn as_slice(&self) -> &[T]
        ensures { result.now ≡ self.now }
    {
        self.items.as_slice()
    }

    /// The items as a vector. Takes no memory.
    pub fn into_vec(self) -> Vec<T>
        ensures { result.items ≡ self }
    {
        let OwnedList { items } = self;
        items
    }
}
