// The bytes of one file, and the work on them.
ghost use Rattle.std.specs.Prelude.{◌≡◌, ◌+◌, ◌-◌, ◌≤◌, ◌^◌, ◌++◌, [], length, take, drop, replicate, IfOk, OnOk, OnErr};
ghost use Rattle.byte_fields.specs.Bytes.{overwritten, part_of, resized};

use std::alloc::{AllocError, Global};
use std::marker::Model;

/// The bytes of one file.
#[derive(Drop)]
pub struct File {
    bytes: Vec<u8>,
}

impl Model for File {
    ghost use Rattle.std.specs.Prelude.{List, ℕ};

    ghost Value = { List ℕ };

    ghost view = { λ file. file.bytes.items };
}

impl File {
    /// A file with no bytes. Takes no memory.
    pub fn new(alloc: Global) -> File
        ensures { result ≡ [] }
    {
        File {
            bytes: Vec::new(alloc),
        }
    }

    /// A file with the bytes of the vector. Takes no memory.
    pub fn from_vec(bytes: Vec<u8>) -> File
        ensures { result ≡ bytes.items }
    {
        File { bytes }
    }

    /// A file with a copy of the bytes.
    pub fn copied(alloc: Global, bytes: &[u8]) -> Result<File, AllocError>
        ensures { IfOk result (λ file. file ≡ bytes.now) }
    {
        Ok(File {
            bytes: Vec::from_slice(alloc, bytes)?,
        })
    }

    /// The bytes, lent.
    pub fn as_slice(&self) -> &[u8]
        ensures { result.now ≡ self.now }
    {
        self.bytes.as_slice()
    }

    /// Sets the length; new bytes are zeros.
    pub fn resize(&mut self, n: usize) -> Result<(), AllocError>
        ensures done { OnOk result (self.new ≡ resized self.old n) }
        ensures failed { OnErr result (self.new ≡ self.old) }
    {
        if n <= self.bytes.len() {
            self.bytes.truncate(n);
            return Ok(());
        }
        self.bytes.resize(n, 0)
    }

    /// Writes at a place; zeros lie between an earlier end and the place.
    pub fn overwrite(&mut self, at: usize, bytes: &[u8]) -> Result<(), AllocError>
        requires { at + length bytes.now ≤ 2 ^ 62 }
        ensures done { OnOk result (self.new ≡ overwritten self.old at bytes.now) }
        ensures failed { OnErr result (self.new ≡ self.old) }
    {
        grow(&mut self.bytes, at + bytes.len())?;
        put_at(&mut self.bytes, at, bytes);
        Ok(())
    }
}

/// Puts zeros behind a text up to an end.
fn grow(text: &mut Vec<u8>, end: usize) -> Result<(), AllocError>
    ensures done { OnOk result (text.new.items ≡ text.old.items ++ replicate (end - length text.old.items) 0) }
    ensures failed { OnErr result (text.new.items ≡ text.old.items) }
{
    if text.len() < end {
        text.resize(end, 0)?;
    }
    Ok(())
}

/// Writes the bytes over those at the place.
fn put_at(text: &mut Vec<u8>, at: usize, bytes: &[u8])
    requires { at + length bytes.now ≤ length text.old.items }
    ensures { text.new.items ≡ take at text.old.items ++ bytes.now ++ drop (at + length bytes.now) text.old.items }
{
    text.as_mut_slice()[at..at + bytes.len()].copy_from_slice(bytes);
}

/// Copies the bytes from a place on to the front of a buffer, as many as there are or the buffer takes, and answers
/// how many.
pub fn copy_part(bytes: &[u8], at: u64, into: &mut [u8]) -> usize
    ensures bound { result ≤ length into.old }
    ensures copied { take result into.new ≡ part_of bytes.now at (length into.old) }
    ensures rest { drop result into.new ≡ drop result into.old }
{
    let start = at.min(bytes.len() as u64) as usize;
    let rest = &bytes[start..];
    let n = rest.len().min(into.len());
    into[..n].copy_from_slice(&rest[..n]);
    n
}
