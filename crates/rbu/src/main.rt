//! The program `rbu COMMAND TARGET RBU STATE ARG ..`, a bulk updater for SQLite files.
//!
//! The command and its arguments go to `run_command` of `rbu_run`, whose contract says what is done, with the disk of real
//! files at the three paths.
#![tactic(auto)]

mod program;
#[cfg(test)]
mod real_files;
#[cfg(test)]
mod tests;

use disk_host::HostSink;
use program::{UNAVAILABLE, program};
use std::process::ExitCode;

fn main(rt: HostRuntime) -> ExitCode {
    let status = match HostSink::new(&rt) {
        Ok(mut out) => program(&rt, &rt, &mut out),
        Err(_) => UNAVAILABLE,
    };
    ExitCode::from(status)
}
