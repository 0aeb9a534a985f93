//! One call of the planner, and what it left.
use crate::files::{FileFault, file_of};
use eon_disk::{Deck, FileDeck, Fill, MemDisk};
use eon_outside::{FileShelf, MemShelf, MemSink, Shelf, Sink};
use plan_serve::plan_main;
use std::alloc::{AllocError, Global};

/// The most bytes that a call may write here.
const ROOM: usize = 1_048_576;

/// How much room a disk in memory has for writes.
const DISK_ROOM: usize = 4096;

/// The most bytes that files and output in memory take at a time.
const PIECE: usize = 28;

/// What fails.
#[derive(Clone, Copy, Debug, PartialEq, Eq)]
pub enum Place {
    Files,
    Output,
    Disk,
}

/// A call that fails, by its number among those of its object, counted from 1.
#[derive(Clone, Copy, Debug, PartialEq, Eq)]
pub struct Fault {
    pub place: Place,
    pub call: u64,
}

/// How a call of the planner ended: its code, what it wrote in how many writes, and what was then on a disk in memory.
#[derive(Drop)]
pub struct Ended {
    pub code: u8,
    pub written: Vec<u8>,
    pub writes: u64,
    pub disk: Vec<u8>,
}

/// The code with which the planner ends.
fn code_over<H: Shelf, K: Sink, D: Deck>(
    alloc: Global,
    words: &[String],
    shelf: &mut H,
    out: &mut K,
    disk: &mut D,
) -> u8 {
    plan_main(alloc, words, shelf, out, disk).code()
}

/// The numbers of the calls that fail of this object.
fn calls_failing(alloc: Global, fault: Fault, place: Place) -> Result<Vec<u64>, AllocError> {
    let mut calls = Vec::new(alloc);
    if fault.place == place {
        calls.push(fault.call)?;
    }
    Ok(calls)
}

/// Output of any length, in one piece.
fn wide_output(alloc: Global) -> Result<MemSink, AllocError> {
    MemSink::new(alloc, ROOM, ROOM, Vec::new(alloc))
}

/// Calls the planner over the files of the machine. The journal is one of them too.
pub(crate) fn over_files(rt: &HostRuntime, words: &[String]) -> Result<Ended, AllocError> {
    let alloc = rt.alloc();
    let mut shelf = FileShelf::new(rt);
    let mut out = wide_output(alloc)?;
    let mut disk = FileDeck::new(rt);
    let code = code_over(alloc, words, &mut shelf, &mut out, &mut disk);
    Ok(Ended {
        code,
        written: out.given().to_vec(alloc)?,
        writes: out.calls(),
        disk: Vec::new(alloc),
    })
}

/// Calls the planner over the files of the machine, and a disk in memory with these bytes.
pub(crate) fn over_memory(
    rt: &HostRuntime,
    journal: Vec<u8>,
    words: &[String],
) -> Result<Ended, AllocError> {
    let alloc = rt.alloc();
    let mut shelf = FileShelf::new(rt);
    let mut out = wide_output(alloc)?;
    let mut disk = MemDisk::new(alloc, journal, DISK_ROOM, Vec::new(alloc), None)?;
    let code = code_over(alloc, words, &mut shelf, &mut out, &mut disk);
    Ok(Ended {
        code,
        written: out.given().to_vec(alloc)?,
        writes: out.calls(),
        disk: disk.crash(Fill::Kept),
    })
}

/// Adds a file of this name.
fn add_file(
    alloc: Global,
    files: &mut Vec<(String, Vec<u8>)>,
    name: &str,
    bytes: Vec<u8>,
) -> Result<(), AllocError> {
    files.push((String::from_str(alloc, name)?, bytes))?;
    Ok(())
}

/// The files of the machine with the names among the words, as far as they are there, held in memory.
fn shelf_of(rt: &HostRuntime, words: &[String], fails: Vec<u64>) -> Result<MemShelf, FileFault> {
    let alloc = rt.alloc();
    let mut files = Vec::new(alloc);
    for name in words {
        match file_of(alloc, &mut FileShelf::new(rt), name.as_str()) {
            Ok(bytes) => add_file(alloc, &mut files, name.as_str(), bytes)?,
            Err(FileFault::Memory) => return Err(FileFault::Memory),
            Err(_) => {}
        }
    }
    Ok(MemShelf::new(files, PIECE, fails))
}

/// Calls the planner over files, output and a disk in memory, where one call fails. The disk has no bytes at first.
pub(crate) fn with_fault(
    rt: &HostRuntime,
    fault: Fault,
    words: &[String],
) -> Result<Ended, FileFault> {
    let alloc = rt.alloc();
    let mut shelf = shelf_of(rt, words, calls_failing(alloc, fault, Place::Files)?)?;
    let mut out = MemSink::new(
        alloc,
        ROOM,
        PIECE,
        calls_failing(alloc, fault, Place::Output)?,
    )?;
    let fails = calls_failing(alloc, fault, Place::Disk)?;
    let mut disk = MemDisk::new(alloc, Vec::new(alloc), DISK_ROOM, fails, None)?;
    let code = code_over(alloc, words, &mut shelf, &mut out, &mut disk);
    Ok(Ended {
        code,
        written: out.given().to_vec(alloc)?,
        writes: out.calls(),
        disk: disk.crash(Fill::Kept),
    })
}
