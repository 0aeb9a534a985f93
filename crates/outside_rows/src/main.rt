//! Rows by hand of what no clause says: disks in memory that stop, the files and the output of the machine, and lines of
//! each kind of word. A line that begins with `ok` stands for each row that holds.
#![tactic(auto)]

mod disk_rows;
mod file_rows;
mod line_rows;

use std::alloc::AllocError;
use std::io;
use std::process::ExitCode;

/// Why the rows were not all tried.
#[derive(Clone, Copy, Debug, PartialEq, Eq)]
pub(crate) enum Stop {
    /// There was no memory.
    Memory,
    /// What came out could not be printed.
    Output,
}

impl From<AllocError> for Stop {
    fn from(_error: AllocError) -> Stop {
        Stop::Memory
    }
}

impl From<io::Error> for Stop {
    fn from(_error: io::Error) -> Stop {
        Stop::Output
    }
}

/// Prints whether the row of this name holds.
pub(crate) fn report(rt: &HostRuntime, name: &str, holds: bool) -> Result<(), Stop> {
    let word = if holds { "ok" } else { "FAILED" };
    println!(rt; "{word} {name}")?;
    Ok(())
}

/// Tries each row.
fn report_all(rt: &HostRuntime) -> Result<(), Stop> {
    file_rows::report_all(rt)?;
    disk_rows::report_all(rt)?;
    line_rows::report_all(rt)
}

fn main(rt: HostRuntime) -> ExitCode {
    match report_all(&rt) {
        Ok(()) => ExitCode::SUCCESS,
        Err(_) => ExitCode::FAILURE,
    }
}
