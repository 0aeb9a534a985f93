//! Replays the worked rows that lie beside it: calls the planner as the file `cases` says, and compares what
//! it writes with what is stored. A line that begins with `ok` stands for each case that came out so.
#![tactic(auto)]

mod call;
mod case;
mod files;

use case::{Case, Outcome, outcome_of};
use eon_outside::{Failed, FileShelf, StdoutSink, write_all};
use files::{FileFault, file_of};
use std::io;
use std::process::ExitCode;

/// The file with one case a line.
const CASES: &str = "cases";

/// Why the cases were not all tried.
#[derive(Clone, Copy, Debug, PartialEq, Eq)]
enum Stop {
    /// The cases, or a file that one of them names, could not be read.
    File(FileFault),
    /// What came out could not be printed.
    Output,
}

impl From<FileFault> for Stop {
    fn from(fault: FileFault) -> Stop {
        Stop::File(fault)
    }
}

impl From<io::Error> for Stop {
    fn from(_error: io::Error) -> Stop {
        Stop::Output
    }
}

/// Prints bytes as they are.
fn print_bytes(rt: &HostRuntime, bytes: &[u8]) -> Result<(), Stop> {
    match write_all(&mut StdoutSink::new(rt), bytes) {
        Ok(()) => Ok(()),
        Err(Failed) => Err(Stop::Output),
    }
}

/// Tries one case, and prints what came out.
fn report(rt: &HostRuntime, line: &str) -> Result<(), Stop> {
    let case = Case::read(rt.alloc(), line)?;
    match outcome_of(rt, &case)? {
        Outcome::AsStored => println!(rt; "ok {line}")?,
        Outcome::Other { code, written } => {
            println!(rt; "FAILED {line}")?;
            println!(rt; "status {code}")?;
            print_bytes(rt, written.as_slice())?;
        }
    }
    Ok(())
}

/// Tries each case.
fn report_all(rt: &HostRuntime) -> Result<(), Stop> {
    let bytes = file_of(rt.alloc(), &mut FileShelf::new(rt), CASES)?;
    let text = String::from_utf8(bytes).map_err(|_| FileFault::Text)?;
    for line in text.as_str().lines() {
        report(rt, line)?;
    }
    Ok(())
}

fn main(rt: HostRuntime) -> ExitCode {
    match report_all(&rt) {
        Ok(()) => ExitCode::SUCCESS,
        Err(_) => ExitCode::FAILURE,
    }
}
