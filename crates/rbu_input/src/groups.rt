// Batches in groups, one for each target.
ghost use Rattle.std.specs.Prelude.{◌≡◌, [], IfOk, length};
ghost use Rattle.prepared_spec.specs.Inputs.{grouped};
ghost use Rattle.rbu_input.specs.Groups.{belongs as belongs_of, split_from};

use owned_list::OwnedList;
use rbu_rows::Batch;
use schema_tokens::same_name;
use std::alloc::{AllocError, Global};

/// The first of some batches with all others of its target, and those of other targets.
#[derive(Drop)]
pub(crate) struct Split {
    group: Vec<Batch>,
    others: Vec<Batch>,
}

// Whether a batch is for the target of a group, which any batch begins.
fn belongs(group: &[Batch], batch: &Batch) -> bool
    ensures { result ≡ belongs_of group.now batch.now }
{
    match group {
        [first, ..] => same_name(batch.table.as_slice(), first.table.as_slice()),
        [] => true,
    }
}

// Takes the first group out of batches.
fn take_group(alloc: Global, batches: Vec<Batch>) -> Result<Split, AllocError>
    ensures group { IfOk result (λ split. split.group.items ≡ (split_from [] [] batches.items).0) }
    ensures others { IfOk result (λ split. split.others.items ≡ (split_from [] [] batches.items).1) }
{
    let mut group = Vec::new(alloc);
    let mut others = Vec::new(alloc);
    for batch in batches {
        if belongs(&group, &batch) {
            group.push(batch)?;
        } else {
            others.push(batch)?;
        }
    }
    Ok(Split { group, others })
}

/// Batches in groups, in order of their first ones.
pub(crate) fn group_all(
    alloc: Global,
    batches: Vec<Batch>,
) -> Result<Vec<OwnedList<Batch>>, AllocError>
    ensures { IfOk result (λ groups. groups.items ≡ grouped (length batches.items) batches.items) }
{
    let mut groups = Vec::new(alloc);
    let mut most = batches.len();
    let mut left = batches;
    while most > 0 && !left.is_empty() {
        let Split { group, others } = take_group(alloc, left)?;
        groups.push(OwnedList::from_vec(group))?;
        left = others;
        most -= 1;
    }
    Ok(groups)
}
