// What small updates come to, and the counters that they raise.
use crate::ensure::ensure;
use crate::small_files::target_with;
use rbu_value::{Bytes, Value};
use small_file::read_target;
use small_spec::PreparedRow;
use small_update::{Decision, decide, write_pages};
use std::alloc::{AllocError, Global};
use std::test::Fail;

// A prepared row: its rowid, its key, and its text or NULL.
type Insert = (i64, i64, Option<&'static [u8]>);

fn value_of(alloc: Global, text: Option<&[u8]>) -> Result<Value, AllocError> {
    match text {
        Some(text) => Ok(Value::Text(Bytes::of(alloc, text)?)),
        None => Ok(Value::Null),
    }
}

fn prepared_rows(alloc: Global, inserts: &[Insert]) -> Result<Vec<PreparedRow>, AllocError> {
    let mut prepared = Vec::new(alloc);
    for (data_rowid, key, text) in inserts {
        prepared.push(PreparedRow {
            data_rowid: *data_rowid,
            key: *key,
            value: value_of(alloc, *text)?,
        })?;
    }
    Ok(prepared)
}

// What is decided on the rows of a target.
fn decided(alloc: Global, target: &[u8], inserts: &[Insert]) -> Result<Decision, Fail> {
    let prepared = prepared_rows(alloc, inserts)?;
    match read_target(alloc, target)? {
        Some(old) => Ok(decide(alloc, old, prepared)?),
        None => Err(Fail::new("a target")),
    }
}

// The rows (1, 'one') and (2, 'two') with these become so many.
fn merges(alloc: Global, target: &[u8], inserts: &[Insert], count: usize) -> Result<(), Fail> {
    match decided(alloc, target, inserts)? {
        Decision::Merged(rows) => ensure(rows.len() == count, "the rows"),
        _ => Err(Fail::new("merged")),
    }
}

// The prepared row at this rowid has a key that is present.
fn finds_present(alloc: Global, target: &[u8], inserts: &[Insert], rowid: i64) -> Result<(), Fail> {
    match decided(alloc, target, inserts)? {
        Decision::KeyPresent { table, data_rowid } => {
            ensure(table.as_slice() == b"t1".as_slice(), "the table")?;
            ensure(data_rowid == rowid, "the prepared row")
        }
        _ => Err(Fail::new("a key present")),
    }
}

const DREI: Option<&[u8]> = Some(b"drei");

#[test]
fn each_decision_has_its_cause(rt: HostRuntime) -> Result<(), Fail> {
    let alloc = rt.alloc();
    let target = target_with(alloc, &[])?;
    merges(alloc, &target, &[(1, 3, DREI)], 3)?;
    merges(alloc, &target, &[], 2)?;
    finds_present(alloc, &target, &[(1, 2, None)], 1)?;
    finds_present(alloc, &target, &[(1, 2, DREI), (2, 1, None)], 2)?;
    let shared = [(1, 5, DREI), (2, 4, DREI), (3, 5, None)];
    let found = decided(alloc, &target, &shared)?;
    ensure(matches!(found, Decision::SharedKey), "a shared key")
}

// The target with this row more.
fn updated(alloc: Global, target: &[u8], insert: Insert) -> Result<Vec<u8>, Fail> {
    let prepared = prepared_rows(alloc, &[insert])?;
    let Some(old) = read_target(alloc, target)? else {
        return Err(Fail::new("a target"));
    };
    let mut bytes = target.to_vec(alloc)?;
    match decide(alloc, old, prepared)? {
        Decision::Merged(rows) if bytes.len() == 8192 => write_pages(&mut bytes, &rows),
        _ => return Err(Fail::new("merged")),
    }
    Ok(bytes)
}

fn has_part(bytes: &[u8], at: usize, part: &[u8]) -> bool {
    bytes.iter().skip(at).take(part.len()).eq(part)
}

// The greatest change counter, and schema cookie 7.
const GREATEST: &[(usize, &[u8])] = &[
    (24, b"\xff\xff\xff\xff"),
    (40, b"\0\0\0\x07"),
    (92, b"\xff\xff\xff\xff"),
];

#[test]
fn counters_wrap(rt: HostRuntime) -> Result<(), Fail> {
    let target = target_with(rt.alloc(), GREATEST)?;
    let bytes = updated(rt.alloc(), &target, (1, 3, DREI))?;
    ensure(has_part(&bytes, 24, b"\0\0\0\0"), "the change counter")?;
    ensure(has_part(&bytes, 40, b"\0\0\0\x08"), "the schema cookie")?;
    ensure(has_part(&bytes, 92, b"\0\0\0\0"), "valid for")
}
