// The rows of a batch in the order of their steps.
ghost use Rattle.std.specs.Prelude.{◌≡◌, List, IfOk, map};
ghost use Rattle.std.specs.List.{AllByRecursion};
ghost use Rattle.rbu_rows.specs.declared.prepared.Prepared.{Prepared as AnyPrepared};
ghost use Rattle.schema_spec.specs.declared.schema.Table.{Table as AnyTable};
ghost use Rattle.prepared_spec.specs.RowKeys.{key_collations, IsInKeyOrder};
ghost use Rattle.compared_keys.specs.Keys.{compared_key as compared_key_of, HasKey};
ghost use Rattle.group_rows.specs.Runs.{seen, with_key};

use compared_keys::{ComparedKey, compared_key};
use rbu_rows::Prepared;
use rbu_value::Collation;
use std::alloc::{AllocError, Global};

/// A prepared row and its key as it compares.
#[derive(Drop)]
pub(crate) struct Keyed<'a> {
    pub(crate) key: ComparedKey,
    pub(crate) row: &'a Prepared,
}

// The rows with their keys.
fn keyed_rows<'a>(
    alloc: Global,
    collations: &[Collation],
    rows: &'a [Prepared],
) -> Result<Vec<Keyed<'a>>, AllocError>
    ensures { IfOk result (λ keyed. map seen keyed.items ≡ map (λ row. (compared_key_of collations.now row.key, row)) rows.now) }
{
    let mut keyed = Vec::new(alloc);
    let mut left = rows;
    while let [row, rest @ ..] = left {
        let key = compared_key(alloc, collations, row.key.as_slice())?;
        keyed.push(Keyed { key, row })?;
        left = rest;
    }
    Ok(keyed)
}

/// The rows of a batch with their keys, in the order of these.
pub(crate) fn ordered_rows<'a>(
    alloc: Global,
    collations: &[Collation],
    rows: &'a [Prepared],
) -> Result<Vec<Keyed<'a>>, AllocError>
    ensures { IfOk result (λ keyed. (table : AnyTable) (ordered : List AnyPrepared) → collations.now ≡ key_collations table → IsInKeyOrder table rows.now ordered
        → AllByRecursion (HasKey table) rows.now → map seen keyed.items ≡ map (with_key table) ordered) }
{
    let mut keyed = keyed_rows(alloc, collations, rows)?;
    keyed.sort_unstable_by(|a, b| a.key.cmp(&b.key));
    Ok(keyed)
}
