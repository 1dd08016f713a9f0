// Commands on copies of disks, and what they left.
use crate::ensure::ensure;
use disk_memory::{MemoryDisk, MemorySink};
use rbu_disk::FileName;
use rbu_run::{Ran, run_command};
use sha2::{Digest, Sha256};
use std::alloc::{AllocError, Global};
use std::test::Fail;

const NAMES: [FileName; 7] = [
    FileName::Target,
    FileName::Oal,
    FileName::Wal,
    FileName::Journal,
    FileName::Rbu,
    FileName::State,
    FileName::StateTemp,
];

/// The words of a whole update, between bars.
pub const UPDATE: &str = "apply|4294967295";

/// SHA-256 of whole files of the example, computed apart from this program.
pub const TARGET_BEFORE: &str = "fb40123be9dc7c75ae982db2b44796e7e6d6c9b8b69e397818ccd4f98c409d47";

pub const TARGET_AFTER: &str = "42beb9a4e281bbff0e447d62bd445b25d4b4b679b4c8d949a505d6498a6c8a22";

pub const RBU: &str = "e391f46782dd17a2edab36399155339c6fa8acd18492174aedfe1fe13ce8c2bf";

pub const LOG: &str = "8cefa9c6ed8a2657190f0002f9a7cccc3a48a2260ad554c30a3c5034550162b7";

/// A disk with the same files, whose calls with these numbers fail.
pub fn copy_of(
    alloc: Global,
    disk: &MemoryDisk,
    failing: &[u64],
) -> Result<MemoryDisk, AllocError> {
    let mut files = Vec::new(alloc);
    for name in NAMES {
        if let Some(bytes) = disk.contents(name) {
            files.push((name, bytes.to_vec(alloc)?))?;
        }
    }
    Ok(MemoryDisk::new(alloc, files, failing.to_vec(alloc)?))
}

/// What a command left and wrote.
#[derive(Drop)]
pub struct Left {
    pub disk: MemoryDisk,
    pub status: u8,
    pub out: MemorySink,
}

/// The words of a command, which stand between bars.
pub fn texts_of(alloc: Global, words: &str) -> Result<Vec<String>, AllocError> {
    let mut texts = Vec::new(alloc);
    for word in words.split('|') {
        texts.push(String::from_str(alloc, word)?)?;
    }
    Ok(texts)
}

fn ran(alloc: Global, texts: &[String], disk: MemoryDisk, mut out: MemorySink) -> Left {
    let Ran { disk, status } = run_command(alloc, texts, [1, 2], disk, &mut out);
    Left { disk, status, out }
}

fn run_on(
    alloc: Global,
    words: &str,
    disk: MemoryDisk,
    out: MemorySink,
) -> Result<Left, AllocError> {
    let texts = texts_of(alloc, words)?;
    Ok(ran(alloc, &texts, disk, out))
}

/// Runs a command with the salt [1, 2] on a copy of a disk, where these calls of the disk and of the output fail.
pub fn run_with_faults(
    alloc: Global,
    words: &str,
    before: &MemoryDisk,
    disk_fails: &[u64],
    output_fails: &[u64],
) -> Result<Left, AllocError> {
    let out = MemorySink::new(alloc, output_fails.to_vec(alloc)?);
    run_on(alloc, words, copy_of(alloc, before, disk_fails)?, out)
}

/// The command ended with this status, and wrote this line.
pub fn tells(left: &Left, status: u8, line: &str) -> bool {
    left.status == status && left.out.written() == line.as_bytes()
}

/// The update ends with this status and line.
pub fn updated(
    alloc: Global,
    before: &MemoryDisk,
    status: u8,
    line: &'static str,
) -> Result<Left, Fail> {
    let left = run_with_faults(alloc, UPDATE, before, &[], &[])?;
    ensure(tells(&left, status, line), line)?;
    Ok(left)
}

/// An update of the disk writes this line.
pub fn update_writes(alloc: Global, disk: &MemoryDisk, line: &str) -> Result<bool, AllocError> {
    let left = run_with_faults(alloc, UPDATE, disk, &[], &[])?;
    Ok(left.out.written() == line.as_bytes())
}

pub fn has_same_files(left: &MemoryDisk, before: &MemoryDisk) -> bool {
    for name in NAMES {
        if left.contents(name) != before.contents(name) {
            return false;
        }
    }
    true
}

/// The update ends with this status and line, and no file is changed.
pub fn stopped(
    alloc: Global,
    before: &MemoryDisk,
    status: u8,
    line: &'static str,
) -> Result<(), Fail> {
    let left = updated(alloc, before, status, line)?;
    ensure(has_same_files(&left.disk, before), line)
}

/// The bytes have this SHA-256.
pub fn has_hash(alloc: Global, bytes: &[u8], sha256: &str) -> Result<bool, AllocError> {
    let digest = hex::encode(alloc, Sha256::digest(bytes).as_slice())?;
    Ok(digest.as_str() == sha256)
}

/// The file has this SHA-256.
pub fn has_sum(
    alloc: Global,
    disk: &MemoryDisk,
    name: FileName,
    sha256: &str,
) -> Result<bool, AllocError> {
    let Some(bytes) = disk.contents(name) else {
        return Ok(false);
    };
    has_hash(alloc, bytes, sha256)
}

// Neither log nor a state is left.
fn is_clean(disk: &MemoryDisk) -> bool {
    disk.contents(FileName::Oal).is_none()
        && disk.contents(FileName::Wal).is_none()
        && disk.contents(FileName::State).is_none()
}

/// The files are those of the example after its update.
pub fn are_updated(alloc: Global, disk: &MemoryDisk) -> Result<bool, AllocError> {
    Ok(
        has_sum(alloc, disk, FileName::Target, TARGET_AFTER)?
            && has_sum(alloc, disk, FileName::Rbu, RBU)?
            && is_clean(disk),
    )
}
