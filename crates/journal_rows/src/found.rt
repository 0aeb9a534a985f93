//! What is found in journals as they are, damaged, or cut.

use crate::bytes::{ENTER, OTHER, OWN, head_of, move_and_enter, with_record};
use crate::held::{found_by, found_in};
use crate::opened::Found;
use crate::stop::Stop;

/// The bytes of the journal that is cut.
const WHOLE: usize = 78;

/// Prints what was found.
pub(crate) fn print_found(rt: &HostRuntime, case: &str, found: Found) -> Result<(), Stop> {
    match found {
        Found::Events(count) => println!(rt; "{case}: {count} events")?,
        Found::Head(at) => println!(rt; "{case}: head {at}")?,
        Found::Record(at) => println!(rt; "{case}: record {at}")?,
        Found::Other(byte) => println!(rt; "{case}: other {byte}")?,
        Found::Disk => println!(rt; "{case}: disk")?,
    }
    Ok(())
}

// Journals whose head is another one.
fn print_heads(rt: &HostRuntime) -> Result<(), Stop> {
    let alloc = rt.alloc();
    print_found(rt, "nothing", found_in(alloc, Vec::new(alloc))?)?;
    let mut ten = head_of(alloc, OWN)?;
    ten.truncate(10);
    print_found(rt, "ten bytes", found_in(alloc, ten)?)?;
    let mut changed = b"eONJRNL1".to_vec(alloc)?;
    changed.extend_from_slice(&[OWN; 33])?;
    print_found(rt, "byte 0 changed", found_in(alloc, changed)?)
}

// Journals of this network and of another one.
fn print_others(rt: &HostRuntime) -> Result<(), Stop> {
    let alloc = rt.alloc();
    let bytes = move_and_enter(alloc, 1)?;
    print_found(rt, "another network", found_by(alloc, OTHER, bytes)?)?;
    let mut bind = [OTHER; 33];
    bind[0] = 8;
    let bytes = with_record(alloc, 1, 33, 1, &bind)?;
    print_found(rt, "bound to another", found_in(alloc, bytes)?)?;
    let bytes = with_record(alloc, 1, 33, 1, &bind)?;
    print_found(rt, "bound to it", found_by(alloc, OTHER, bytes)?)
}

// What is found in a journal with one record, behind this gate, with this length and this number.
fn print_record(
    rt: &HostRuntime,
    case: &str,
    gate: u8,
    len: u16,
    number: u32,
    event: &[u8],
) -> Result<(), Stop> {
    let bytes = with_record(rt.alloc(), gate, len, number, event)?;
    print_found(rt, case, found_in(rt.alloc(), bytes)?)
}

// Journals with one record.
fn print_records(rt: &HostRuntime) -> Result<(), Stop> {
    print_record(rt, "an enter", 1, 17, 1, &ENTER)?;
    print_record(rt, "gate 7", 7, 17, 1, &ENTER)?;
    print_record(rt, "number 2", 1, 17, 2, &ENTER)?;
    print_record(rt, "length 65535", 1, 65_535, 1, &ENTER)?;
    print_record(rt, "length 16", 1, 16, 1, &ENTER)?;
    print_record(rt, "kind 0", 1, 6, 1, &[0, 2, 0x73, 0x32, 0xff, 0xf2])
}

// What is to be found in the journal of a move and an enter, cut to this length.
fn wanted(len: usize) -> Found {
    if len < 40 {
        return Found::Head(len as u64);
    }
    if len < 54 {
        return Found::Record(40);
    }
    if len < WHOLE {
        return Found::Record(53);
    }
    Found::Events(2)
}

// Whether the journal of a move and an enter comes out as it is to, cut to this length.
fn is_as_wanted(rt: &HostRuntime, len: usize) -> Result<bool, Stop> {
    let mut bytes = move_and_enter(rt.alloc(), 1)?;
    bytes.truncate(len);
    Ok(found_in(rt.alloc(), bytes)? == wanted(len))
}

// The journal of a move and an enter, cut to each length.
fn print_cuts(rt: &HostRuntime) -> Result<(), Stop> {
    for len in 0..=WHOLE {
        if !is_as_wanted(rt, len)? {
            println!(rt; "cut {len}: not as it is to be")?;
        }
    }
    println!(rt; "cut 0 to 39: head at the length")?;
    println!(rt; "cut 40 to 53: record 40")?;
    println!(rt; "cut 54 to 77: record 53")?;
    println!(rt; "cut 78: 2 events")?;
    Ok(())
}

/// Prints what is found in each journal.
pub(crate) fn print_journals(rt: &HostRuntime) -> Result<(), Stop> {
    print_heads(rt)?;
    print_others(rt)?;
    print_records(rt)?;
    print_cuts(rt)
}
