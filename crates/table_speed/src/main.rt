//! The program `table_speed WORK ROWS`, which shows how long rows take to be put into a table, and to be deleted, and entries to be put into an index.
//!
//! It makes a table in memory and puts so many rows of 100 bytes into it by `put` of `tree_table`, with rowids that rise (`rising`) or in no order (`scattered`), and prints how many pages there are then; or it puts them in no order and deletes them by `delete` (`emptied`), and prints how many were there; or it puts so many entries, of an integer and a rowid, into an index by `put` of `tree_index`, with integers that rise (`entries_rising`) or in no order (`entries_scattered`). `.ci/table_speed` sets its time beside that of SQLite.
#![tactic(auto)]

mod entering;
mod filling;

use entering::entered;
use filling::{Order, emptied, filled};
use std::env;
use std::process::ExitCode;
use std::rt::Env;

// What is to be done.
#[derive(Clone, Copy)]
enum Work {
    // Rows are put in an order.
    Fill(Order),
    // Entries are put in an order.
    Enter(Order),
    // Rows are put and deleted.
    Empty,
}

// The work and the number of rows that the words of the program tell.
fn asked<R: Env + AllocGlobal>(rt: &R) -> Option<(Work, u32)> {
    let Ok(args) = env::args(rt) else {
        return None;
    };
    let Ok(words) = args.collect::<Vec<String>>(rt.alloc()) else {
        return None;
    };
    let [_, work, rows] = words.as_slice() else {
        return None;
    };
    let Ok(rows) = rows.parse::<u32>() else {
        return None;
    };
    match work.as_str() {
        "rising" => Some((Work::Fill(Order::Rising), rows)),
        "scattered" => Some((Work::Fill(Order::Scattered), rows)),
        "entries_rising" => Some((Work::Enter(Order::Rising), rows)),
        "entries_scattered" => Some((Work::Enter(Order::Scattered), rows)),
        "emptied" => Some((Work::Empty, rows)),
        _ => None,
    }
}

fn main(rt: HostRuntime) -> ExitCode {
    let Some((work, rows)) = asked(&rt) else {
        return ExitCode::from(2);
    };
    let alloc = rt.alloc();
    let done = match work {
        Work::Fill(order) => filled(alloc, order, rows),
        Work::Enter(order) => entered(alloc, order, rows),
        Work::Empty => emptied(alloc, rows),
    };
    let Ok(number) = done else {
        return ExitCode::from(1);
    };
    let unit = match work {
        Work::Fill(_) | Work::Enter(_) => "pages",
        Work::Empty => "rows",
    };
    match println!(rt; "{number} {unit}") {
        Ok(()) => ExitCode::SUCCESS,
        Err(_) => ExitCode::from(1),
    }
}
