//! The program `input_rows TARGET RBU`, which prints the prepared rows of an RBU database for its target.
//!
//! Both are files without a log. Each row is a line: the name of its `data_` table, its rowid there, what is done with its row of the target, and the values in the order of the target's columns, with bars between. With a third word, `count`, the line of how many rows there are is printed in place of them. Where rows are refused, or a record of a targeted table is no row of it, the line is `refused`. `.ci/real_files` compares the lines with what SQLite selects, and `.ci/input_speed` shows how long rows take to be read.
#![tactic(auto)]

mod databases;
mod lines;

use databases::{Answer, read_all};
use disk_host::{HostDisk, HostSink};
use lines::lines_of;
use rbu_disk::Sink;
use std::alloc::Global;
use std::env;
use std::process::ExitCode;
use std::rt::Env;

// What is printed of the prepared rows.
#[derive(Clone, Copy)]
enum Shown {
    Rows,
    Count,
}

// The paths of the target and of the RBU database, and what is printed.
fn asked<R: Env + AllocGlobal>(rt: &R) -> Option<(String, String, Shown)> {
    let Ok(args) = env::args(rt) else {
        return None;
    };
    let Ok(mut words) = args.collect::<Vec<String>>(rt.alloc()) else {
        return None;
    };
    let shown = match words.as_slice() {
        [_, _, _] => Shown::Rows,
        [_, _, _, word] if word.as_str() == "count" => Shown::Count,
        _ => return None,
    };
    let target = words.remove(1);
    let rbu = words.remove(1);
    Some((target, rbu, shown))
}

// The lines of an answer.
fn text_of(alloc: Global, answer: Answer, shown: Shown) -> Option<Vec<u8>> {
    let groups = match answer {
        Answer::Rows(groups) => groups,
        Answer::Refused => return Vec::from_slice(alloc, b"refused\n").ok(),
    };
    match shown {
        Shown::Rows => lines_of(alloc, groups.as_slice()).ok(),
        Shown::Count => lines::count_line(alloc, groups.as_slice()).ok(),
    }
}

fn main(rt: HostRuntime) -> ExitCode {
    let alloc = rt.alloc();
    let Some((target, rbu, shown)) = asked(&rt) else {
        return ExitCode::from(2);
    };
    let Ok(mut disk) = HostDisk::new(&rt, alloc, target, rbu, String::new(alloc)) else {
        return ExitCode::from(1);
    };
    let Some(answer) = read_all(alloc, &mut disk) else {
        return ExitCode::from(1);
    };
    let Some(text) = text_of(alloc, answer, shown) else {
        return ExitCode::from(1);
    };
    let Ok(mut out) = HostSink::new(&rt) else {
        return ExitCode::from(1);
    };
    match out.write_all(&text) {
        Ok(()) => ExitCode::SUCCESS,
        Err(_) => ExitCode::from(1),
    }
}
