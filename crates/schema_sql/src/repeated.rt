// Keys of one list of columns.
ghost use Rattle.std.specs.Prelude.{◌≡◌, [], IfOk};
ghost use Rattle.std.specs.List.{list_any};
ghost use Rattle.schema_spec.specs.Names.{repeated_key, same_names};

use crate::names::{listed_names, same_names};
use owned_list::OwnedList;
use rbu_value::Bytes;
use schema_spec::{Key, Token};
use std::alloc::{AllocError, Global};

// One of the lists has the same names.
fn is_repeated(before: &[OwnedList<Bytes>], names: &[Bytes]) -> bool
    ensures { result ≡ list_any (λ other. same_names other names.now) before.now }
{
    let mut left = before;
    while let [other, rest @ ..] = left {
        if same_names(other.as_slice(), names) {
            return true;
        }
        left = rest;
    }
    false
}

// The first word of the first key whose columns are those of one before it.
pub(crate) fn repeated_key(
    alloc: Global,
    text: &[u8],
    keys: &[Key],
) -> Result<Option<Token>, AllocError>
    ensures { IfOk result (λ found. found ≡ repeated_key text.now [] keys.now) }
{
    let mut before = Vec::new(alloc);
    let mut left = keys;
    while let [key, rest @ ..] = left {
        let names = listed_names(alloc, text, key.columns.as_slice())?;
        if is_repeated(before.as_slice(), names.as_slice()) {
            return Ok(Some(key.word));
        }
        before.push(names)?;
        left = rest;
    }
    Ok(None)
}
