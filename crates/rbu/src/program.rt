// The program, from its words in to the status with which it ends.
ghost use Rattle.rbu_run.specs.Status.{IsStatus};

use byte_fields::u32_at;
use disk_host::HostDisk;
use rbu_disk::Sink;
use rbu_run::run_command;
use std::alloc::Global;
use std::random::RandomSource;
use std::rt::{Env, Files};
use std::{env, io};

/// The status where words, salt, the disk or the output cannot be had.
pub const UNAVAILABLE: u8 = 7;

// The command with its arguments, and the paths of the three files that are named.
#[derive(Drop)]
struct Words {
    command: Vec<String>,
    target: String,
    rbu: String,
    state: String,
}

// No command, of no files.
fn no_words(alloc: Global) -> Words {
    Words {
        command: Vec::new(alloc),
        target: String::new(alloc),
        rbu: String::new(alloc),
        state: String::new(alloc),
    }
}

// The words of the program, of which the first is its own name. Where one of the three paths is missing there is no command.
fn parted(alloc: Global, mut words: Vec<String>) -> Words {
    if words.len() < 5 {
        return no_words(alloc);
    }
    let target = words.remove(2);
    let rbu = words.remove(2);
    let state = words.remove(2);
    words.remove(0);
    Words {
        command: words,
        target,
        rbu,
        state,
    }
}

// The words of the program. Words that are no text are those of no command, as no words are.
fn words_of<R: Env + AllocGlobal>(rt: &R) -> io::Result<Words> {
    let alloc = rt.alloc();
    match env::args(rt) {
        Ok(args) => Ok(parted(alloc, args.collect(alloc)?)),
        Err(error) if error.kind() == io::ErrorKind::InvalidData => Ok(no_words(alloc)),
        Err(error) => Err(error),
    }
}

// Eight bytes from the system, as two numbers.
fn salt<R: RandomSource>(rt: &R) -> io::Result<[u32; 2]> {
    let mut bytes = [0; 8];
    rt.fill_bytes(&mut bytes)?;
    Ok([u32_at(&bytes, 0), u32_at(&bytes, 4)])
}

/// Runs the program with the words and the salt of a runtime on real files, and answers the status with which it ends. That
/// is never 1, with which a runtime ends a program that failed by itself.
pub fn program<R: Env + RandomSource + AllocGlobal, F: Files + Clone + Drop, O: Sink>(
    rt: &R,
    files: &F,
    out: &mut O,
) -> u8
    ensures { IsStatus result }
{
    let Ok(words) = words_of(rt) else {
        return UNAVAILABLE;
    };
    let Ok(salt) = salt(rt) else {
        return UNAVAILABLE;
    };
    let Words {
        command,
        target,
        rbu,
        state,
    } = words;
    let Ok(disk) = HostDisk::new(files, rt.alloc(), target, rbu, state) else {
        return UNAVAILABLE;
    };
    run_command(rt.alloc(), &command, salt, disk, out).status
}
