//! The program `table_file ROWS DELETED`, which prints a database that `put` and `delete` of `tree_table` built.
//!
//! It makes a database in memory with one table, puts so many rows into it, at most 3000, with rowids in no order and contents of 0 to 2999 bytes, deletes so many of them, and prints each page as a line of lower-case hexadecimal digits. `.ci/real_files` makes a file of the lines, and compares what SQLite reads of it with the rows.
#![tactic(auto)]

mod building;

use building::{MOST_ROWS, database, page_digits};
use page_store::{PageRead, PlainStore};
use std::alloc::Global;
use std::env;
use std::io::Print;
use std::process::ExitCode;
use std::rt::Env;

// How many rows are put, and how many of them deleted.
fn asked<R: Env + AllocGlobal>(rt: &R) -> Option<(u32, u32)> {
    let Ok(args) = env::args(rt) else {
        return None;
    };
    let Ok(words) = args.collect::<Vec<String>>(rt.alloc()) else {
        return None;
    };
    let [_, rows, deleted] = words.as_slice() else {
        return None;
    };
    match (rows.parse::<u32>(), deleted.parse::<u32>()) {
        (Ok(rows), Ok(deleted)) => Some((rows, deleted)),
        _ => None,
    }
}

// Prints each page, and tells whether all were printed.
fn print_pages<R: Print>(rt: &R, alloc: Global, store: &mut PlainStore) -> bool {
    for number in 1..=store.count() {
        let Some(digits) = page_digits(alloc, store, number) else {
            return false;
        };
        if println!(rt; "{digits}").is_err() {
            return false;
        }
    }
    true
}

fn main(rt: HostRuntime) -> ExitCode {
    let Some((rows, deleted)) = asked(&rt) else {
        return ExitCode::from(2);
    };
    if rows > MOST_ROWS || deleted > rows {
        return ExitCode::from(2);
    }
    let Ok(mut store) = database(rt.alloc(), rows, deleted) else {
        return ExitCode::from(1);
    };
    if print_pages(&rt, rt.alloc(), &mut store) {
        ExitCode::SUCCESS
    } else {
        ExitCode::from(1)
    }
}
