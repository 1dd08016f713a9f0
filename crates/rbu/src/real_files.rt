// The calls on real files, in a folder of the test's own, and the output.
use crate::tests::ensure;
use disk_host::{HostDisk, HostSink};
use rbu_disk::{Disk, DiskCall, DiskFault, FileName, Sink, SinkFault};
use std::alloc::AllocError;
use std::fmt::Display;
use std::io::Print;
use std::test::Fail;
use std::{fs, io};

const FOLDER: &str = "disk_host_files";

const OAL: &str = "disk_host_files/target-oal";

const WAL: &str = "disk_host_files/target-wal";

const RBU: &str = "disk_host_files/rbu";

const STATES: &str = "disk_host_files/states";

// Whether the file at a path holds these bytes.
fn holds(rt: &HostRuntime, path: &str, bytes: &[u8]) -> io::Result<bool> {
    let found = fs::read(rt, path)?;
    Ok(found.as_slice() == bytes)
}

fn disk_at(
    rt: &HostRuntime,
    target: &str,
    rbu: &str,
    state: &str,
) -> Result<HostDisk<HostRuntime>, AllocError> {
    let alloc = rt.alloc();
    let target = String::from_str(alloc, target)?;
    let rbu = String::from_str(alloc, rbu)?;
    let state = String::from_str(alloc, state)?;
    HostDisk::new(rt, alloc, target, rbu, state)
}

// No call fails because a name is missing, and those that only look make no file.
fn try_missing(disk: &mut HostDisk<HostRuntime>) -> Result<bool, DiskFault> {
    let mut buffer = [b'-'; 2];
    let found = disk.exists(FileName::Oal)?;
    let len = disk.len(FileName::Oal)?;
    let n = disk.read_at(FileName::Oal, 0, &mut buffer)?;
    disk.sync(FileName::Oal)?;
    disk.remove(FileName::Oal)?;
    disk.rename(FileName::Oal, FileName::Wal)?;
    Ok(!found && len == 0 && n == 0 && buffer == *b"--")
}

// Writes past the end show zeros before them, also of no bytes.
fn try_writes(disk: &mut HostDisk<HostRuntime>) -> Result<(), DiskFault> {
    disk.write_at(FileName::Oal, 3, b"ab")?;
    disk.write_at(FileName::Oal, 4, b"c")?;
    disk.write_at(FileName::Oal, 7, b"")?;
    disk.write_at(FileName::Oal, 2, b"")
}

fn read_is(
    disk: &mut HostDisk<HostRuntime>,
    at: u64,
    count: usize,
    bytes: &[u8; 4],
) -> Result<bool, DiskFault> {
    let mut buffer = *b"----";
    let n = disk.read_at(FileName::Oal, at, &mut buffer)?;
    Ok(n == count && buffer == *bytes)
}

// An open file goes with its name, and closes with the name that it loses.
fn try_names(rt: &HostRuntime, disk: &mut HostDisk<HostRuntime>) -> Result<(), Fail> {
    disk.set_len(FileName::Oal, 4)?;
    disk.rename(FileName::Oal, FileName::Wal)?;
    disk.write_at(FileName::Wal, 0, b"x")?;
    ensure(holds(rt, WAL, b"x\0\0a")?, "a file goes with its name")?;
    ensure(!fs::exists(rt, OAL)?, "and leaves the old one")?;
    disk.create(FileName::Oal)?;
    disk.write_at(FileName::Oal, 0, b"new")?;
    ensure(holds(rt, WAL, b"x\0\0a")?, "the old name has a new file")?;
    disk.rename(FileName::Oal, FileName::Wal)?;
    disk.write_at(FileName::Wal, 3, b"er")?;
    ensure(holds(rt, WAL, b"newer")?, "a file takes another's place")
}

fn try_removal(rt: &HostRuntime, disk: &mut HostDisk<HostRuntime>) -> Result<(), Fail> {
    disk.remove(FileName::Wal)?;
    ensure(!fs::exists(rt, WAL)?, "an open file is removed")?;
    disk.write_at(FileName::Wal, 0, b"again")?;
    disk.create(FileName::Wal)?;
    disk.sync(FileName::Wal)?;
    ensure(disk.exists(FileName::Wal)?, "it is made again")?;
    ensure(holds(rt, WAL, b"again")?, "and not emptied")
}

// A file longer than what is read at once.
fn try_long(rt: &HostRuntime, disk: &mut HostDisk<HostRuntime>) -> Result<(), Fail> {
    disk.set_len(FileName::Rbu, 70000)?;
    disk.write_at(FileName::Rbu, 69999, b"z")?;
    let mut buffer = vec![in rt.alloc(); b'-'; 70001]?;
    let n = disk.read_at(FileName::Rbu, 0, buffer.as_mut_slice())?;
    ensure(n == 70000, "all is read")?;
    ensure(buffer.as_slice().ends_with(b"\0z-"), "up to its end")?;
    ensure(disk.len(FileName::Rbu)? == 70000, "its length is told")
}

fn try_faults(rt: &HostRuntime, disk: &mut HostDisk<HostRuntime>) -> Result<(), Fail> {
    let limit = 1 << 62;
    let (file, call) = (FileName::State, DiskCall::Write);
    let written = disk.write_at(file, limit, b"a");
    ensure(
        written == Err(DiskFault { file, call }),
        "a write over the limit",
    )?;
    let call = DiskCall::SetLen;
    let grown = disk.set_len(file, limit + 1);
    ensure(grown == Err(DiskFault { file, call }), "a length over it")?;
    ensure(!disk.exists(file)?, "and no file is made")?;
    fs::remove_dir(rt, STATES)?;
    let (file, call) = (FileName::Target, DiskCall::SyncFolder);
    let synced = disk.sync_folder();
    ensure(synced == Err(DiskFault { file, call }), "a missing folder")
}

// Every call in turn, in an empty folder.
fn try_calls(rt: &HostRuntime, disk: &mut HostDisk<HostRuntime>) -> Result<(), Fail> {
    ensure(try_missing(disk)?, "missing files")?;
    ensure(!fs::exists(rt, OAL)?, "no file is made")?;
    try_writes(disk)?;
    ensure(holds(rt, OAL, b"\0\0\0ac\0\0")?, "writes")?;
    ensure(read_is(disk, 2, 4, b"\0ac\0")?, "a read")?;
    ensure(read_is(disk, 5, 2, b"\0\0--")?, "a read to the end")?;
    ensure(read_is(disk, u64::MAX, 0, b"----")?, "a read past it")?;
    try_names(rt, disk)?;
    try_removal(rt, disk)?;
    try_long(rt, disk)?;
    disk.sync_folder()?;
    try_faults(rt, disk)
}

#[test]
fn each_call_works_on_real_files(rt: HostRuntime) -> Result<(), Fail> {
    let _ = fs::remove_dir_all(&rt, FOLDER);
    fs::create_dir(&rt, FOLDER)?;
    fs::create_dir(&rt, STATES)?;
    let mut disk = disk_at(
        &rt,
        "disk_host_files/target",
        RBU,
        "disk_host_files/states/state",
    )?;
    try_calls(&rt, &mut disk)?;
    disk_at(&rt, "target", "rbu", "state")?.sync_folder()?;
    fs::remove_dir_all(&rt, FOLDER)?;
    Ok(())
}

// An output that takes so many bytes at once.
#[derive(Clone, Copy)]
struct Narrow(usize);

impl Print for Narrow {
    fn print<D: Display + Drop>(&self, _value: D) -> io::Result<()> {
        Ok(())
    }

    fn println<D: Display + Drop>(&self, _value: D) -> io::Result<()> {
        Ok(())
    }

    fn write_all(&self, _bytes: &[u8]) -> io::Result<()> {
        Ok(())
    }

    fn write_some(&self, bytes: &[u8]) -> io::Result<usize> {
        Ok(bytes.len().min(self.0))
    }
}

#[test]
fn output_is_taken_or_fails(rt: HostRuntime) -> Result<(), Fail> {
    ensure(
        HostSink::new(&rt)?.write_all(b"written\n").is_ok(),
        "standard output",
    )?;
    ensure(
        HostSink::new(&Narrow(2))?.write_all(b"abc").is_ok(),
        "in two writes",
    )?;
    ensure(
        HostSink::new(&Narrow(0))?.write_all(b"abc") == Err(SinkFault),
        "none is taken",
    )
}
