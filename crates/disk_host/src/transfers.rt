// The loops over read and write, over any reader and writer.
ghost use Rattle.std.specs.Prelude.{◌≡◌, ◌≤◌, ◌<◌, IfOk, OnOk, OnErr, length, take, drop};
ghost use Rattle.std.specs.Io.KnownBytes.{Appends, Consumes, IsAtEnd};

use std::io;
use std::io::{ErrorKind, Read, Write};

/// How many bytes are read at once.
const PIECE: usize = 8192;

/// Reads once, through a room for a piece, into the front of the buffer.
fn read_once<T: Read>(reader: &mut T, room: &mut [u8], into: &mut [u8]) -> io::Result<usize>
    ensures bound { IfOk result (λ n. n ≤ length into.old) }
    ensures rest { IfOk result (λ n. drop n into.new ≡ drop n into.old) }
    ensures bytes { IfOk result (λ n. Consumes (T.remaining reader.old) (T.remaining reader.new) (take n into.new)) }
    ensures end { IfOk result (λ n. n ≡ 0 → 0 < length room.old → 0 < length into.old → IsAtEnd (T.remaining reader.new)) }
{
    let most = into.len().min(room.len());
    let piece = &mut room[..most];
    let n = reader.read(piece)?;
    into[..n].copy_from_slice(&piece[..n]);
    Ok(n)
}

/// Reads through a room for a piece until the buffer is full or a read gives nothing.
fn read_through<T: Read>(reader: &mut T, room: &mut [u8], into: &mut [u8]) -> io::Result<usize>
    requires room { 0 < length room.old }
    ensures bound { IfOk result (λ n. n ≤ length into.old) }
    ensures rest { IfOk result (λ n. drop n into.new ≡ drop n into.old) }
    ensures bytes { IfOk result (λ n. Consumes (T.remaining reader.old) (T.remaining reader.new) (take n into.new)) }
    ensures end { IfOk result (λ n. n < length into.old → IsAtEnd (T.remaining reader.new)) }
{
    let mut done = 0;
    while done < into.len() {
        let n = read_once(reader, room, &mut into[done..])?;
        if n == 0 {
            return Ok(done);
        }
        done += n;
    }
    Ok(done)
}

/// Reads until the buffer is full or a read gives nothing, which is the end, and answers how many bytes. The rest of the
/// buffer stays, of which a reader promises nothing: so what is read goes through a room of its own.
pub fn read_all<T: Read>(reader: &mut T, into: &mut [u8]) -> io::Result<usize>
    ensures bound { IfOk result (λ n. n ≤ length into.old) }
    ensures rest { IfOk result (λ n. drop n into.new ≡ drop n into.old) }
    ensures bytes { IfOk result (λ n. Consumes (T.remaining reader.old) (T.remaining reader.new) (take n into.new)) }
    ensures end { IfOk result (λ n. n < length into.old → IsAtEnd (T.remaining reader.new)) }
{
    let mut room = [0u8; PIECE];
    read_through(reader, &mut room, into)
}

/// Writes all the bytes. A write that takes none fails.
pub fn write_all<T: Write>(writer: &mut T, bytes: &[u8]) -> io::Result<()>
    ensures { OnOk result (Appends (T.contents writer.old) (T.contents writer.new) bytes.now) }
{
    let mut done = 0;
    while done < bytes.len() {
        let taken = writer.write(&bytes[done..])?;
        if taken == 0 {
            return Err(ErrorKind::WriteZero.into());
        }
        done += taken;
    }
    Ok(())
}
