// Saves of a state whose calls fail, and what crashes leave of the state file.
ghost use Rattle.std.specs.Prelude.{IfOk};
ghost use Rattle.state_file.specs.State.{CanSave};

use crate::ensure::ensure;
use disk_memory::MemoryDisk;
use rbu_disk::FileName;
use state_file::{DataKey, SavedState, save, state_bytes};
use std::alloc::{AllocError, Global};
use std::test::Fail;

// A state without names behind so many steps.
fn state(steps: u32) -> SavedState
    ensures { CanSave result }
{
    SavedState {
        stage: 1,
        table: None,
        index: None,
        row: 0,
        progress: u64::from(steps),
        sums: [1, 2],
        change_counter: 7,
        log_size: 32,
        batch: DataKey::Null,
    }
}

fn bytes_of(alloc: Global, steps: u32) -> Result<Vec<u8>, AllocError> {
    let mut bytes = [0; 8192];
    state_bytes(&state(steps), &mut bytes);
    Vec::from_slice(alloc, &bytes)
}

// A disk with this state file, whose calls with these numbers fail.
fn disk_with(alloc: Global, old: &[u8], failing: &[u64]) -> Result<MemoryDisk, AllocError> {
    let mut files = Vec::new(alloc);
    files.push((FileName::State, Vec::from_slice(alloc, old)?))?;
    Ok(MemoryDisk::new(alloc, files, Vec::from_slice(alloc, failing)?))
}

// Whether every crash leaves the old state or the new one, and the new one where that is saved.
fn survives(
    alloc: Global,
    disk: &MemoryDisk,
    old: &[u8],
    new: &[u8],
    saved: bool,
) -> Result<bool, AllocError> {
    for choice in 0..24 {
        let left = disk.crash(alloc, choice)?;
        let Some(bytes) = left.contents(FileName::State) else {
            return Ok(false);
        };
        if bytes != new && (saved || bytes != old) {
            return Ok(false);
        }
    }
    Ok(true)
}

// A save whose calls with these numbers fail.
fn check_save(alloc: Global, old: &[u8], new: &[u8], failing: &[u64]) -> Result<(), Fail> {
    let mut disk = disk_with(alloc, old, failing)?;
    let mut buffer = [0; 8192];
    let saved = save(&mut disk, &state(2), &mut buffer).is_ok();
    ensure(saved == failing.is_empty(), "a call that fails")?;
    ensure(
        survives(alloc, &disk, old, new, saved)?,
        "the old state or the new",
    )
}

#[test]
fn saves_leave_the_old_state_or_the_new(rt: HostRuntime) -> Result<(), Fail> {
    let alloc = rt.alloc();
    let old = bytes_of(alloc, 1)?;
    let new = bytes_of(alloc, 2)?;
    check_save(alloc, &old, &new, &[])?;
    for call in 0..5 {
        check_save(alloc, &old, &new, &[call])?;
    }
    Ok(())
}
