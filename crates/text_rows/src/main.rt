//! Prints back what it reads: each command of the file `lines`, or the place of its fault, and the reply to `list` over the
//! network of the file `net`, without a service. So what is read and what is printed are seen to be one text.
#![tactic(auto)]

use command_text::{print_command, read_command};
use eon_outside::{FileShelf, ReadEnd, Shelf, StdoutSink, read_up_to, write_all};
use leg_state::Services;
use net_file::read_net;
use reply_text::{Reply, print_reply};
use std::alloc::{AllocError, Global};
use std::io;
use std::process::ExitCode;

/// The most bytes of a command line.
const LONGEST_LINE: usize = 4096;

/// The most bytes of a file.
const LONGEST_FILE: usize = 65_536;

/// Why not all was printed.
#[derive(Clone, Copy, Debug, PartialEq, Eq)]
enum Stop {
    /// A file could not be read, or is no text of the form that is wanted.
    File,
    /// There was no memory.
    Memory,
    /// What came out could not be printed.
    Output,
}

impl From<AllocError> for Stop {
    fn from(_error: AllocError) -> Stop {
        Stop::Memory
    }
}

impl From<io::Error> for Stop {
    fn from(_error: io::Error) -> Stop {
        Stop::Output
    }
}

/// All bytes of the file of this name.
fn file_of<H: Shelf>(alloc: Global, shelf: &mut H, name: &str) -> Result<Vec<u8>, Stop> {
    let mut bytes = Vec::new(alloc);
    match read_up_to(shelf, name, &mut bytes, LONGEST_FILE) {
        Ok(ReadEnd::Whole) => Ok(bytes),
        _ => Err(Stop::File),
    }
}

/// Prints bytes as they are.
fn print_bytes(rt: &HostRuntime, bytes: &[u8]) -> Result<(), Stop> {
    match write_all(&mut StdoutSink::new(rt), bytes) {
        Ok(()) => Ok(()),
        Err(_) => Err(Stop::Output),
    }
}

/// Prints the command of the line, or the place of its fault.
fn print_line(rt: &HostRuntime, line: &[u8]) -> Result<(), Stop> {
    if line.len() > LONGEST_LINE {
        return Err(Stop::File);
    }
    let mut text = Vec::new(rt.alloc());
    match read_command(line) {
        Ok(command) => print_command(&command, &mut text)?,
        Err(fault) => print!(rt; "line {}", fault.at)?,
    }
    print_bytes(rt, text.as_slice())?;
    println!(rt)?;
    Ok(())
}

/// Prints the command of each line.
fn print_lines(rt: &HostRuntime) -> Result<(), Stop> {
    let bytes = file_of(rt.alloc(), &mut FileShelf::new(rt), "lines")?;
    let text = String::from_utf8(bytes).map_err(|_| Stop::File)?;
    for line in text.as_str().lines() {
        print_line(rt, line.as_bytes())?;
    }
    Ok(())
}

/// Prints the list of no services.
fn print_empty_list(rt: &HostRuntime) -> Result<(), Stop> {
    let bytes = file_of(rt.alloc(), &mut FileShelf::new(rt), "net")?;
    let Ok(setup) = read_net(rt.alloc(), bytes.as_slice()) else {
        return Err(Stop::File);
    };
    let services = Services::new(rt.alloc());
    let mut text = Vec::new(rt.alloc());
    print_reply(&Reply::List, &setup, &services, &mut text)?;
    print_bytes(rt, text.as_slice())
}

/// Prints all that is read.
fn print_all(rt: &HostRuntime) -> Result<(), Stop> {
    print_lines(rt)?;
    print_empty_list(rt)
}

fn main(rt: HostRuntime) -> ExitCode {
    match print_all(&rt) {
        Ok(()) => ExitCode::SUCCESS,
        Err(_) => ExitCode::FAILURE,
    }
}
