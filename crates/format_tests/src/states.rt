// State files, which were laid out apart and which SQLite reads.
ghost use Rattle.std.specs.Prelude.{IfOk};
ghost use Rattle.state_file.specs.State.{CanSave};

use crate::ensure::ensure;
use rbu_value::Bytes;
use state_file::{DataKey, SavedState, StateFault, StateKey, read_state, state_bytes};
use std::alloc::{AllocError, Global};
use std::test::Fail;

// The header and the array of the second page, and its rows, of nine keys and of eight.
const NINE: (&[u8], &[u8]) = (
    b"\x0d\0\0\0\x09\x0f\xc5\0\x0f\xfb\x0f\xf4\x0f\xef\x0f\xe9\x0f\xe3\x0f\xde\x0f\xd8\x0f\xd1\x0f\xc5",
    b"\x0a\x0a\x03\0\x1bdata_t1\x05\x08\x03\0\x02\x20\x50\x04\x07\x03\0\x01\x07\x03\x06\x03\0\x08\x04\x05\x03\0\x01\x03\x04\x04\x03\0\x01\x03\x03\x03\x03\0\0\x05\x02\x03\0\x11t1\x03\x01\x03\0\x09",
);

const EIGHT: (&[u8], &[u8]) = (
    b"\x0d\0\0\0\x08\x0f\xd1\0\x0f\xfb\x0f\xf4\x0f\xef\x0f\xe9\x0f\xe3\x0f\xde\x0f\xd8\x0f\xd1",
    b"\x05\x08\x03\0\x02\x20\x50\x04\x07\x03\0\x01\x07\x03\x06\x03\0\x08\x04\x05\x03\0\x01\x03\x04\x04\x03\0\x01\x03\x03\x03\x03\0\0\x05\x02\x03\0\x11t1\x03\x01\x03\0\x09",
);

// The state of stage 1 behind three steps, with other numbers under some keys.
fn state(
    alloc: Global,
    stage: u8,
    row: u32,
    progress: u32,
    log_size: u32,
) -> Result<SavedState, AllocError>
    ensures { IfOk result CanSave }
{
    Ok(SavedState {
        stage,
        table: Some(Bytes::of(alloc, b"t1")?),
        index: None,
        row: u64::from(row),
        progress: u64::from(progress),
        sums: [0, 0],
        change_counter: 7,
        log_size: u64::from(log_size),
        batch: DataKey::Name(Bytes::of(alloc, b"data_t1")?),
    })
}

// The bytes of the file of such a state.
fn written(
    alloc: Global,
    stage: u8,
    row: u32,
    progress: u32,
    log_size: u32,
) -> Result<Vec<u8>, AllocError> {
    let state = state(alloc, stage, row, progress, log_size)?;
    let mut bytes = [0; 8192];
    state_bytes(&state, &mut bytes);
    Vec::from_slice(alloc, &bytes)
}

// A file with this first page and with a second page of these parts, between which all is zero.
fn file_of(alloc: Global, first: &[u8], front: &[u8], rows: &[u8]) -> Result<Vec<u8>, AllocError> {
    let mut bytes = Vec::from_slice(alloc, first)?;
    bytes.extend_from_slice(front)?;
    bytes.resize(8192usize.saturating_sub(rows.len()), 0)?;
    bytes.extend_from_slice(rows)?;
    Ok(bytes)
}

fn is_name(name: Option<&Bytes>, expected: Option<&[u8]>) -> bool {
    match (name, expected) {
        (Some(bytes), Some(text)) => bytes.as_slice() == text,
        (None, None) => true,
        _ => false,
    }
}

// Whether the state has the numbers and the names of the one that was laid out.
fn is_laid_out(state: &SavedState) -> bool {
    state.stage == 1
        && is_name(state.table.as_ref(), Some(b"t1".as_slice()))
        && is_name(state.index.as_ref(), None)
        && state.row == 3
        && state.progress == 3
        && state.sums == [0, 0]
        && state.change_counter == 7
        && state.log_size == 8272
}

fn has_batch(state: &SavedState) -> bool {
    match &state.batch {
        DataKey::Name(bytes) => bytes.as_slice() == b"data_t1".as_slice(),
        DataKey::Absent | DataKey::Null => false,
    }
}

fn has_fault(alloc: Global, bytes: &[u8], fault: StateFault) -> bool {
    read_state(alloc, bytes).is_err_and(|other| other == fault)
}

#[test]
fn states_are_written_and_read(rt: HostRuntime) -> Result<(), Fail> {
    let alloc = rt.alloc();
    let bytes = written(alloc, 1, 3, 3, 8272)?;
    let first = bytes.get(..4096).ok_or("a page")?;
    let nine = file_of(alloc, first, NINE.0, NINE.1)?;
    ensure(bytes.as_slice() == nine.as_slice(), "nine keys")?;
    let read = read_state(alloc, &nine)?;
    ensure(is_laid_out(&read) && has_batch(&read), "nine keys are read")?;
    let eight = file_of(alloc, first, EIGHT.0, EIGHT.1)?;
    let read = read_state(alloc, &eight)?;
    ensure(
        is_laid_out(&read) && matches!(read.batch, DataKey::Absent),
        "eight keys are read",
    )
}

#[test]
fn other_files_are_no_state(rt: HostRuntime) -> Result<(), Fail> {
    let alloc = rt.alloc();
    let mut bytes = written(alloc, 1, 3, 3, 8272)?;
    ensure(
        has_fault(
            alloc,
            bytes.get(..100).ok_or("a front")?,
            StateFault::NotState,
        ),
        "a short file",
    )?;
    *bytes.get_mut(5000).ok_or("an unused byte")? = 1;
    ensure(
        has_fault(alloc, &bytes, StateFault::NotState),
        "an unused byte that is not 0",
    )?;
    let stage = written(alloc, 3, 3, 3, 8272)?;
    ensure(
        has_fault(alloc, &stage, StateFault::StateKey(StateKey::Stage)),
        "no stage",
    )?;
    let row = written(alloc, 1, 2, 1, 31)?;
    ensure(
        has_fault(alloc, &row, StateFault::StateKey(StateKey::Row)),
        "a row past the progress",
    )?;
    let log_size = written(alloc, 1, 3, 3, 31)?;
    ensure(
        has_fault(alloc, &log_size, StateFault::StateKey(StateKey::LogSize)),
        "a log without header",
    )
}
