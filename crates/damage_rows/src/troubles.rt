//! Calls that fail, a disk that stops, and files and output that give and take little at a time.

use crate::call::{Ended, Scene, Trouble, run};
use crate::states::{State, is_at_or_next};
use crate::tally::Tally;
use eon_disk::Fill;
use std::alloc::{AllocError, Global};

/// More calls of an object than a call of the planner makes here.
const MOST_CALLS: u64 = 100_000;

/// An object of which a call fails.
#[derive(Clone, Copy, Debug, PartialEq, Eq)]
pub(crate) enum Place {
    Files,
    Output,
    Disk,
}

impl Place {
    /// The call of this number fails.
    fn trouble(self, call: u64) -> Trouble {
        match self {
            Place::Files => Trouble::Files(call),
            Place::Output => Trouble::Output(call),
            Place::Disk => Trouble::Disk(call),
        }
    }

    /// The code with which the planner ends then.
    fn code(self) -> u8 {
        match self {
            Place::Files => 3,
            Place::Output => 7,
            Place::Disk => 4,
        }
    }
}

/// Whether a call ended as it may where one call of this object failed: with the object's code, and a front of what the whole
/// call writes.
fn is_right_failure(place: Place, whole: &Ended, ended: &Ended) -> bool {
    ended.code == place.code()
        && ended.faults == 1
        && whole
            .written
            .as_slice()
            .starts_with(ended.written.as_slice())
}

/// Tries the scene with each call of this object failing in turn, until it makes no call of that number.
fn try_place(
    alloc: Global,
    scene: &Scene,
    place: Place,
    tally: &mut Tally,
) -> Result<(), AllocError> {
    let whole = run(alloc, scene, Trouble::Nothing)?;
    for call in 1..MOST_CALLS {
        let ended = run(alloc, scene, place.trouble(call))?;
        if ended.faults == 0 {
            return Ok(());
        }
        let is_right = is_right_failure(place, &whole, &ended);
        tally.note(call, u64::from(place.code()), is_right, ended)?;
    }
    Ok(())
}

/// Tries the scene with each call of its objects failing in turn.
pub(crate) fn try_failures(
    alloc: Global,
    scene: &Scene,
    tally: &mut Tally,
) -> Result<(), AllocError> {
    try_place(alloc, scene, Place::Files, tally)?;
    try_place(alloc, scene, Place::Output, tally)?;
    try_place(alloc, scene, Place::Disk, tally)
}

/// How many changes were acknowledged: the lines that begin with `ok`.
fn acknowledged(written: &[u8]) -> usize {
    let mut count: usize = 0;
    for line in written.split(|byte| *byte == b'\n') {
        if line.starts_with(b"ok ") {
            count = count.saturating_add(1);
        }
    }
    count
}

/// The number by which a fill is told.
fn number_of(fill: Fill) -> u64 {
    match fill {
        Fill::Kept => 256,
        Fill::Byte(byte) => u64::from(byte),
    }
}

/// Tries the scene with the disk stopping at each of its calls in turn. What is left is in the state behind as many changes as
/// were acknowledged, or in the next one.
fn try_fill(
    alloc: Global,
    scene: &Scene,
    states: &[State],
    fill: Fill,
    tally: &mut Tally,
) -> Result<(), AllocError> {
    for call in 1..MOST_CALLS {
        let ended = run(alloc, scene, Trouble::Stop(call, fill))?;
        if ended.faults == 0 {
            return Ok(());
        }
        let number = acknowledged(ended.written.as_slice());
        let is_right = is_at_or_next(alloc, states, number, ended.disk.as_slice())?;
        tally.note(call, number_of(fill), is_right, ended)?;
    }
    Ok(())
}

/// Tries the scene with the disk stopping at each of its calls in turn, and the places that were not synced as they are, or each of
/// them a byte of a gate that is closed, that is open, or that is neither.
pub(crate) fn try_stops(
    alloc: Global,
    scene: &Scene,
    states: &[State],
    tally: &mut Tally,
) -> Result<(), AllocError> {
    try_fill(alloc, scene, states, Fill::Kept, tally)?;
    try_fill(alloc, scene, states, Fill::Byte(0), tally)?;
    try_fill(alloc, scene, states, Fill::Byte(1), tally)?;
    try_fill(alloc, scene, states, Fill::Byte(7), tally)
}

/// Tries the scene with files that give and output that takes so many bytes at a time. It ends and writes as in large pieces.
fn try_piece(
    alloc: Global,
    scene: &mut Scene,
    whole: &Ended,
    reads: usize,
    writes: usize,
    tally: &mut Tally,
) -> Result<(), AllocError> {
    scene.reads = reads;
    scene.writes = writes;
    let ended = run(alloc, scene, Trouble::Nothing)?;
    let is_right = ended.is(whole.code, whole.written.as_slice());
    tally.note(reads as u64, writes as u64, is_right, ended)
}

/// Tries the scene with files, output, and both that give and take one byte at a time, and with two sizes of which none divides the
/// other.
pub(crate) fn try_pieces(
    alloc: Global,
    scene: &mut Scene,
    tally: &mut Tally,
) -> Result<(), AllocError> {
    let (reads, writes) = (scene.reads, scene.writes);
    let whole = run(alloc, scene, Trouble::Nothing)?;
    try_piece(alloc, scene, &whole, 1, writes, tally)?;
    try_piece(alloc, scene, &whole, reads, 1, tally)?;
    try_piece(alloc, scene, &whole, 1, 1, tally)?;
    try_piece(alloc, scene, &whole, 7, 3, tally)
}
