// Rows of a `data_` table that have one key.
ghost use Rattle.std.specs.Prelude.{◌≡◌, ◌⊎◌, [], OnOk, IfErr, None};
ghost use Rattle.std.specs.List.{AllByRecursion};
ghost use Rattle.prepared_spec.specs.declared.input_fault.InputFault.{InputFault as AnyFault};
ghost use Rattle.prepared_spec.specs.Inputs.{key_twice};
ghost use Rattle.compared_keys.specs.Keys.{HasKey};
ghost use Rattle.rbu_input.specs.Keys.{IsKeyTwice};
ghost use Rattle.rbu_input.specs.RowAnswers.{IsWant, Refuses};

use crate::fault::InputError;
use compared_keys::{compared_key, key_collations};
use prepared_spec::InputFault;
use rbu_rows::Prepared;
use rbu_value::Bytes;
use schema_spec::Table;
use std::alloc::{AllocError, Global};
use std::collections::BTreeMap;

// The refusal of two rows of one key.
fn refuse_twice(alloc: Global, source: &[u8], first: &Prepared, second: &Prepared) -> InputError
    ensures { IsWant result ⊎ Refuses (λ refused. refused ≡ AnyFault.DuplicateKey source.now first.now.data_rowid second.now.data_rowid) result }
{
    match Bytes::of(alloc, source) {
        Ok(table) => InputError::Refused(InputFault::DuplicateKey {
            table,
            first: first.data_rowid,
            second: second.data_rowid,
        }),
        Err(error) => InputError::Memory(error),
    }
}

/// Refuses two rows of a `data_` table that have one key: the least second row, and the one before it.
pub(crate) fn check_keys(
    alloc: Global,
    source: &[u8],
    target: &Table,
    rows: &[Prepared],
) -> Result<(), InputError>
    requires whole { AllByRecursion (HasKey target.now) rows.now }
    ensures right { OnOk result (key_twice target.now [] rows.now ≡ None) }
    ensures fault { IfErr result (λ fault. IsWant fault ⊎ Refuses (IsKeyTwice source.now target.now rows.now) fault) }
{
    let collations = key_collations(alloc, target)?;
    let mut seen = BTreeMap::new(alloc);
    let mut left = rows;
    while let [row, rest @ ..] = left {
        let key = compared_key(alloc, collations.as_slice(), row.key.as_slice())?;
        match seen.insert(key, row) {
            Ok(Some(first)) => return Err(refuse_twice(alloc, source, first, row)),
            Ok(None) => {}
            Err(_) => return Err(InputError::Memory(AllocError)),
        }
        left = rest;
    }
    Ok(())
}
