// Maps from keys to the first place among items at which each stands.
ghost use Rattle.std.specs.Prelude.{◌≡◌, OnOk};
ghost use Rattle.indexmap.specs.IndexMap.{get_by};
ghost use Rattle.schema_read.specs.Firsts.{NotesKey, is_before as is_before_of};

use indexmap::{Equivalent, IndexMap};
use std::alloc::AllocError;
use std::hash::Hash;

/// Notes that an item at this place has the key, where none before has it.
pub(crate) fn note<K: Eq + Hash + Drop>(
    firsts: &mut IndexMap<K, usize>,
    key: K,
    at: usize,
) -> Result<(), AllocError>
    ensures { OnOk result (NotesKey K.eq firsts.old firsts.new key at) }
{
    if firsts.contains_key(&key) {
        return Ok(());
    }
    firsts.insert(key, at)?;
    Ok(())
}

/// The place of a key.
pub(crate) fn first_place<K: Eq + Hash, Q: Equivalent<K>>(
    firsts: &IndexMap<K, usize>,
    key: Q,
) -> Option<usize>
    ensures { result ≡ get_by (Q.equivalent key) firsts.now }
{
    firsts.get(key).copied()
}

/// Whether there is a place, and it is before another.
pub(crate) fn is_before(place: Option<usize>, at: usize) -> bool
    ensures { result ≡ is_before_of at place }
{
    match place {
        Some(place) => place < at,
        None => false,
    }
}
