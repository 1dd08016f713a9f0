// The calls on the files of the system.
ghost use Rattle.std.specs.Prelude.{◌≡◌, ◌≤◌, ◌<◌, ◌+◌, ◌^◌, IfOk, IsErr, length, drop};

use crate::open_files::OpenFiles;
use crate::paths::{Paths, folder_of};
use crate::transfers::{read_all, write_all};
use rbu_disk::FileName;
use std::fs::{File, OpenFile, OpenOptions};
use std::io::{ErrorKind, Read, Seek, SeekFrom, Write};
use std::rt::Files;
use std::{fs, io};

/// The greatest length of a file, in bytes.
const LIMIT: u64 = 1 << 62;

/// Fails where the end of a write is over the greatest length of a file.
fn check_end(at: u64, len: u64) -> io::Result<()>
    ensures { 2 ^ 62 < at + len → IsErr result }
{
    match at.checked_add(len) {
        Some(end) if end <= LIMIT => Ok(()),
        _ => Err(ErrorKind::FileTooLarge.into()),
    }
}

/// Reads a file from a place. A place behind the end is not sought, since a system may refuse it.
fn read_from<F: OpenFile + Read + Seek>(file: &mut F, at: u64, into: &mut [u8]) -> io::Result<usize>
    ensures bound { IfOk result (λ n. n ≤ length into.old) }
    ensures rest { IfOk result (λ n. drop n into.new ≡ drop n into.old) }
{
    if at >= file.metadata()?.len() {
        return Ok(0);
    }
    file.seek(SeekFrom::Start(at))?;
    read_all(file, into)
}

/// Writes a file at a place. The system shows zeros before it, and makes no file longer for no bytes.
fn write_to<F: OpenFile + Write + Seek>(file: &mut F, at: u64, bytes: &[u8]) -> io::Result<()> {
    if bytes.is_empty() {
        return lengthen(file, at);
    }
    file.seek(SeekFrom::Start(at))?;
    write_all(file, bytes)
}

/// Sets the length of a shorter file.
fn lengthen<F: OpenFile>(file: &F, len: u64) -> io::Result<()> {
    if file.metadata()?.len() < len {
        file.set_len(len)?;
    }
    Ok(())
}

/// Makes the names in a folder stable.
fn sync_names<R: Files>(rt: &R, folder: &str) -> io::Result<()> {
    File::open(rt, folder)?.sync_all()
}

/// The files of an update by their paths. A file is opened at its first use, and stays open under its name.
#[derive(Drop)]
pub struct HostFiles<R: Files> {
    rt: R,
    paths: Paths,
    open: OpenFiles<R::File>,
}

impl<R: Files + Drop> HostFiles<R> {
    /// The files at these paths, of which none is open.
    pub fn new(rt: R, paths: Paths) -> HostFiles<R> {
        HostFiles {
            rt,
            paths,
            open: OpenFiles::new(),
        }
    }

    /// Opens the file of a name for reading and writing, and makes it where it is missing and is to be made.
    fn open_path(&self, name: FileName, is_made: bool) -> io::Result<R::File> {
        OpenOptions::new()
            .read(true)
            .write(true)
            .create(is_made)
            .open(&self.rt, self.paths.path(name))
    }

    /// Takes out the file of a name, opened where it was not; none for a missing one.
    fn take_file(&mut self, name: FileName) -> io::Result<Option<R::File>> {
        if let Some(file) = self.open.take(name) {
            return Ok(Some(file));
        }
        match self.open_path(name, false) {
            Ok(file) => Ok(Some(file)),
            Err(error) if error.kind() == ErrorKind::NotFound => Ok(None),
            Err(error) => Err(error),
        }
    }

    /// Takes out the file of a name, opened where it was not, and made where it is missing.
    fn take_made(&mut self, name: FileName) -> io::Result<R::File> {
        match self.open.take(name) {
            Some(file) => Ok(file),
            None => self.open_path(name, true),
        }
    }

    /// Whether there is a file under the name, which is not opened.
    pub fn exists(&self, name: FileName) -> io::Result<bool> {
        fs::exists(&self.rt, self.paths.path(name))
    }

    /// The length of the file; 0 for a missing one.
    pub fn len(&mut self, name: FileName) -> io::Result<u64> {
        let Some(file) = self.take_file(name)? else {
            return Ok(0);
        };
        let found = file.metadata();
        self.open.keep(name, file);
        Ok(found?.len())
    }

    /// Reads from a place, fewer bytes than asked only at the file's end.
    pub fn read_at(&mut self, name: FileName, at: u64, into: &mut [u8]) -> io::Result<usize>
        ensures bound { IfOk result (λ n. n ≤ length into.old) }
        ensures rest { IfOk result (λ n. drop n into.new ≡ drop n into.old) }
    {
        let Some(mut file) = self.take_file(name)? else {
            return Ok(0);
        };
        let done = read_from(&mut file, at, into);
        self.open.keep(name, file);
        done
    }

    /// Writes at a place; a missing file is made first.
    pub fn write_at(&mut self, name: FileName, at: u64, bytes: &[u8]) -> io::Result<()>
        ensures { 2 ^ 62 < at + length bytes.now → IsErr result }
    {
        check_end(at, bytes.len() as u64)?;
        let mut file = self.take_made(name)?;
        let done = write_to(&mut file, at, bytes);
        self.open.keep(name, file);
        done
    }

    /// Sets the length; a missing file is made first.
    pub fn set_len(&mut self, name: FileName, n: u64) -> io::Result<()>
        ensures { 2 ^ 62 < n → IsErr result }
    {
        check_end(n, 0)?;
        let file = self.take_made(name)?;
        let done = file.set_len(n);
        self.open.keep(name, file);
        done
    }

    /// Makes the file's bytes and length stable. A missing file has none.
    pub fn sync(&mut self, name: FileName) -> io::Result<()> {
        let Some(file) = self.take_file(name)? else {
            return Ok(());
        };
        let done = file.sync_all();
        self.open.keep(name, file);
        done
    }

    /// Makes an empty file where there is none.
    pub fn create(&mut self, name: FileName) -> io::Result<()> {
        let file = self.take_made(name)?;
        self.open.keep(name, file);
        Ok(())
    }

    /// Removes and closes the file where there is one.
    pub fn remove(&mut self, name: FileName) -> io::Result<()> {
        if self.exists(name)? {
            fs::remove_file(&self.rt, self.paths.path(name))?;
            let _ = self.open.take(name);
        }
        Ok(())
    }

    /// Gives the file another name, in place of what that had. A missing file changes nothing.
    pub fn rename(&mut self, from: FileName, to: FileName) -> io::Result<()> {
        if self.exists(from)? {
            fs::rename(&self.rt, self.paths.path(from), self.paths.path(to))?;
            self.open.rename(from, to);
        }
        Ok(())
    }

    /// Makes the names in each different folder of the files stable.
    pub fn sync_folders(&self) -> io::Result<()> {
        let target = folder_of(self.paths.path(FileName::Target));
        let rbu = folder_of(self.paths.path(FileName::Rbu));
        let state = folder_of(self.paths.path(FileName::State));
        sync_names(&self.rt, target)?;
        if rbu != target {
            sync_names(&self.rt, rbu)?;
        }
        if state != target && state != rbu {
            sync_names(&self.rt, state)?;
        }
        Ok(())
    }
}
