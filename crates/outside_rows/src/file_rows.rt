//! Files and the output of the machine, and pieces that are held back.
use crate::{Stop, report};
use eon_outside::{
    Buffered, FileShelf, MemSink, ReadEnd, ReadFault, Shelf, StdoutSink, read_up_to, write_all,
};
use std::alloc::AllocError;
use std::marker::Brand;

/// A file that lies beside the program.
const TEXT: &str = "text";

/// A file is read whole, and nothing is open before and behind a name that is missing.
fn file_is_read<H: Shelf>(shelf: &mut H, room: &mut Vec<u8>) -> bool {
    let nothing = shelf.read(&mut [0; 4]) == Ok(0);
    let whole = read_up_to(shelf, TEXT, room, 6) == Ok(ReadEnd::Whole);
    let is_text = room.as_slice() == b"net 2\n".as_slice();
    nothing && whole && is_text
}

/// A file that is longer than what is wanted, and one that is not there.
fn other_ends<H: Shelf>(shelf: &mut H, room: &mut Vec<u8>) -> bool {
    let long = read_up_to(shelf, TEXT, room, 5) == Ok(ReadEnd::Long);
    let missing = read_up_to(shelf, "missing", room, 9) == Err(ReadFault::Failed);
    long && missing && shelf.read(&mut [0; 4]) == Ok(0)
}

/// Whether the pieces go through, the second of them behind a failure, until the sink is full.
fn goes_on_behind_a_failure(sink: &mut MemSink, room: &mut Vec<u8>) -> bool {
    let mut held: Buffered<'_, MemSink, Brand> = Buffered::new(sink, room);
    let first = write_all(&mut held, b"abc").is_ok() && write_all(&mut held, b"defgh").is_ok();
    let failed = held.flush().is_err();
    let second = write_all(&mut held, b"longer than the room").is_ok();
    first && failed && second && held.flush().is_err()
}

/// What a sink did not take stays held, and comes out in its order.
fn held_stays(rt: &HostRuntime) -> Result<bool, AllocError> {
    let alloc = rt.alloc();
    let mut sink = MemSink::new(alloc, 20, 2, [2].to_vec(alloc)?)?;
    let mut room = Vec::with_capacity(alloc, 8)?;
    let went_on = goes_on_behind_a_failure(&mut sink, &mut room);
    Ok(went_on && sink.given() == b"abcdefghlonger than ".as_slice())
}

/// Tries each row.
pub(crate) fn report_all(rt: &HostRuntime) -> Result<(), Stop> {
    let mut shelf = FileShelf::new(rt);
    let mut room = Vec::new(rt.alloc());
    let whole = file_is_read(&mut shelf, &mut room);
    report(rt, "a file is read", whole)?;
    let others = other_ends(&mut shelf, &mut room) && shelf.faults() == 1;
    report(rt, "a long file and a missing one", others)?;
    let mut out = StdoutSink::new(rt);
    let given = write_all(&mut out, b"given\n").is_ok() && out.faults() == 0;
    report(rt, "standard output takes a piece", given)?;
    report(rt, "what was not taken stays held", held_stays(rt)?)
}
