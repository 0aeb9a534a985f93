//! A call of the planner over files, output and a disk in memory, and what it left.

use eon_disk::{Deck, Fill, MemDisk};
use eon_outside::{MemShelf, MemSink, Shelf, Sink};
use plan_serve::plan_main;
use std::alloc::{AllocError, Global};

/// The most bytes that a call may write here.
const ROOM: usize = 65_536;

/// How much room the disk has for writes.
const DISK_ROOM: usize = 65_536;

/// How many bytes are read and written at a time, where nothing else is asked for.
const PIECE: usize = 65_536;

/// What is in the way of a call. Calls of an object are counted from 1.
#[derive(Clone, Copy, Debug, PartialEq, Eq)]
pub(crate) enum Trouble {
    Nothing,
    /// This call of the files fails.
    Files(u64),
    /// This call of the output fails.
    Output(u64),
    /// This call of the disk fails.
    Disk(u64),
    /// The machine stops at this call of the disk, and the places that are not synced hold what the fill says.
    Stop(u64, Fill),
}

/// What a call is made over: its words, the files with their names, the journal, and how much is read and written at a time.
#[derive(Drop)]
pub(crate) struct Scene {
    pub(crate) words: Vec<String>,
    pub(crate) files: Vec<(String, Vec<u8>)>,
    pub(crate) journal: Vec<u8>,
    pub(crate) reads: usize,
    pub(crate) writes: usize,
}

/// How a call ended: its code, what it wrote, how many calls of its objects failed, and the bytes of the disk.
#[derive(Drop)]
pub(crate) struct Ended {
    pub(crate) code: u8,
    pub(crate) written: Vec<u8>,
    pub(crate) faults: u64,
    pub(crate) disk: Vec<u8>,
}

impl Trouble {
    fn of_files(self) -> Option<u64> {
        match self {
            Trouble::Files(call) => Some(call),
            _ => None,
        }
    }

    fn of_output(self) -> Option<u64> {
        match self {
            Trouble::Output(call) => Some(call),
            _ => None,
        }
    }

    fn of_disk(self) -> Option<u64> {
        match self {
            Trouble::Disk(call) => Some(call),
            _ => None,
        }
    }

    fn stop(self) -> Option<u64> {
        match self {
            Trouble::Stop(call, _) => Some(call),
            _ => None,
        }
    }

    fn fill(self) -> Fill {
        match self {
            Trouble::Stop(_, fill) => fill,
            _ => Fill::Kept,
        }
    }
}

impl Scene {
    /// A call with these words, over no file and an empty journal.
    pub(crate) fn new(alloc: Global, words: &[&str]) -> Result<Scene, AllocError> {
        let mut owned = Vec::new(alloc);
        for word in words {
            owned.push(String::from_str(alloc, word)?)?;
        }
        Ok(Scene {
            words: owned,
            files: Vec::new(alloc),
            journal: Vec::new(alloc),
            reads: PIECE,
            writes: PIECE,
        })
    }

    /// Adds a file of this name.
    pub(crate) fn add_file(
        &mut self,
        alloc: Global,
        name: &str,
        bytes: Vec<u8>,
    ) -> Result<(), AllocError> {
        self.files.push((String::from_str(alloc, name)?, bytes))?;
        Ok(())
    }
}

impl Ended {
    /// Whether it ended with this code and wrote this.
    pub(crate) fn is(&self, code: u8, written: &[u8]) -> bool {
        self.code == code && self.written.as_slice() == written
    }
}

/// The same files again.
fn files_of(
    alloc: Global,
    files: &[(String, Vec<u8>)],
) -> Result<Vec<(String, Vec<u8>)>, AllocError> {
    let mut same = Vec::new(alloc);
    for (name, bytes) in files {
        same.push((
            String::from_str(alloc, name.as_str())?,
            bytes.as_slice().to_vec(alloc)?,
        ))?;
    }
    Ok(same)
}

/// The number of a call, if there is one.
fn calls_of(alloc: Global, call: Option<u64>) -> Result<Vec<u64>, AllocError> {
    let mut calls = Vec::new(alloc);
    if let Some(call) = call {
        calls.push(call)?;
    }
    Ok(calls)
}

/// The code with which the planner ends.
fn code_over<H: Shelf, K: Sink, D: Deck>(
    alloc: Global,
    words: &[String],
    shelf: &mut H,
    out: &mut K,
    disk: &mut D,
) -> u8 {
    plan_main(alloc, words, shelf, out, disk).code()
}

/// Calls the planner.
pub(crate) fn run(alloc: Global, scene: &Scene, trouble: Trouble) -> Result<Ended, AllocError> {
    let files = files_of(alloc, scene.files.as_slice())?;
    let fails = calls_of(alloc, trouble.of_files())?;
    let mut shelf = MemShelf::new(files, scene.reads.max(1), fails);
    let fails = calls_of(alloc, trouble.of_output())?;
    let mut out = MemSink::new(alloc, ROOM, scene.writes.max(1), fails)?;
    let journal = scene.journal.as_slice().to_vec(alloc)?;
    let fails = calls_of(alloc, trouble.of_disk())?;
    let mut disk = MemDisk::new(alloc, journal, DISK_ROOM, fails, trouble.stop())?;
    let code = code_over(
        alloc,
        scene.words.as_slice(),
        &mut shelf,
        &mut out,
        &mut disk,
    );
    let faults = shelf
        .faults()
        .saturating_add(out.faults())
        .saturating_add(disk.faults());
    Ok(Ended {
        code,
        written: out.given().to_vec(alloc)?,
        faults,
        disk: disk.crash(trouble.fill()),
    })
}
