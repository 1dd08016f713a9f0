// The program over runtimes that fail.
use crate::program::program;
use disk_memory::MemorySink;
use std::alloc::Global;
use std::env::FillError;
use std::io;
use std::random::RandomSource;
use std::rt::Env;
use std::test::Fail;

// Fails by name where something does not hold.
pub fn ensure(holds: bool, what: &'static str) -> Result<(), Fail> {
    if holds { Ok(()) } else { Err(Fail::new(what)) }
}

// A runtime with these words, whose salt may be missing.
#[derive(Drop)]
struct Machine {
    words: &'static [&'static [u8]],
    has_salt: bool,
    alloc: Global,
}

impl Env for Machine {
    fn arg(&self, i: usize, buf: &mut [u8]) -> Result<usize, FillError> {
        let word = self.words.get(i).ok_or(FillError::NotPresent)?;
        let room = buf.get_mut(..word.len()).ok_or(FillError::TooLong)?;
        room.copy_from_slice(word);
        Ok(word.len())
    }

    fn var(&self, _name: &str, _buf: &mut [u8]) -> Result<usize, FillError> {
        Err(FillError::NotPresent)
    }

    fn var_at(&self, _i: usize, _buf: &mut [u8]) -> Result<usize, FillError> {
        Err(FillError::NotPresent)
    }
}

impl RandomSource for Machine {
    fn fill_bytes(&self, buf: &mut [u8]) -> io::Result<()> {
        if !self.has_salt {
            return Err(io::Error::from(io::ErrorKind::Unsupported));
        }
        buf.fill(1);
        Ok(())
    }
}

impl Alloc for Machine {
    type A = Global;

    fn alloc(&self) -> Global {
        self.alloc
    }
}

const WHOLE_UPDATE: &[&[u8]] = &[b"rbu", b"apply", b"a", b"b", b"c", b"4294967295"];

const DUMP: &[&[u8]] = &[b"rbu", b"dump", b"a", b"b", b"c", b"sqlite_schema"];

const NO_TEXT: &[&[u8]] = &[b"rbu", b"apply", b"a", b"b", b"c", b"\xff"];

const TOO_FEW: &[&[u8]] = &[b"rbu", b"apply", b"a", b"b"];

// The program, with these words on files of which none exists, ends with this status and output.
fn ends_with(
    rt: &HostRuntime,
    words: &'static [&'static [u8]],
    has_salt: bool,
    status: u8,
    output: &'static str,
) -> Result<(), Fail> {
    let alloc = rt.alloc();
    let machine = Machine {
        words,
        has_salt,
        alloc,
    };
    let mut fails = Vec::new(alloc);
    if status == 8 {
        fails.push(0)?;
    }
    let mut out = MemorySink::new(alloc, fails);
    let ended = program(&machine, rt, &mut out);
    ensure(
        ended == status && (status == 8 || out.written() == output.as_bytes()),
        output,
    )
}

#[test]
fn program_ends_with_each_status(rt: HostRuntime) -> Result<(), Fail> {
    ends_with(&rt, WHOLE_UPDATE, true, 4, "refused 1 NotYet target\n")?;
    ends_with(&rt, DUMP, true, 4, "refused 30 NotADatabase\n")?;
    ends_with(&rt, NO_TEXT, true, 2, "usage\n")?;
    ends_with(&rt, TOO_FEW, true, 2, "usage\n")?;
    ends_with(&rt, &[], true, 2, "usage\n")?;
    ends_with(&rt, WHOLE_UPDATE, false, 7, "")?;
    ends_with(&rt, WHOLE_UPDATE, true, 8, "refused")?;
    ends_with(&rt, TOO_FEW, true, 8, "usage")
}
