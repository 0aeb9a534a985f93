//! A fresh journal, and events that are appended.

use crate::bytes::{ENTER, MOVE, OWN, event_of, filled};
use crate::held::disk_of;
use crate::opened::{Put, append, prepare};
use crate::stop::Stop;
use eon_disk::Fill;
use plan_journal::{InitFault, init};

// What becomes of an event behind so many enters and so many moves, and how many calls of the disk it took once the journal
// was ready.
fn print_put(rt: &HostRuntime, enters: u32, moves: u32, event: &[u8]) -> Result<(), Stop> {
    let alloc = rt.alloc();
    let event = event_of(event)?;
    let mut ready = disk_of(alloc, filled(alloc, enters, moves)?, None)?;
    let _is_ready = prepare(&mut ready);
    let mut disk = disk_of(alloc, filled(alloc, enters, moves)?, None)?;
    let put = append(&mut disk, &event);
    let calls = disk.calls().saturating_sub(ready.calls());
    match put {
        Put::Done { left } => {
            println!(rt; "behind {enters} and {moves}: left {left}, {calls} calls")?;
        }
        Put::Full { need, left } => {
            println!(rt; "behind {enters} and {moves}: full {need} {left}, {calls} calls")?;
        }
        Put::Disk => println!(rt; "behind {enters} and {moves}: disk")?,
    }
    Ok(())
}

// What came of making a fresh journal.
fn print_made(rt: &HostRuntime, case: &str, made: Result<(), InitFault>) -> Result<(), Stop> {
    match made {
        Ok(()) => println!(rt; "{case}: made")?,
        Err(InitFault::NotEmpty { len }) => println!(rt; "{case}: notempty {len}")?,
        Err(InitFault::Disk) => println!(rt; "{case}: disk")?,
    }
    Ok(())
}

// A fresh journal to which a move is appended, byte for byte behind the head.
fn print_fresh(rt: &HostRuntime) -> Result<(), Stop> {
    let alloc = rt.alloc();
    let mut disk = disk_of(alloc, Vec::new(alloc), None)?;
    print_made(rt, "init", init(&mut disk, &[OWN; 32]))?;
    print_made(rt, "init again", init(&mut disk, &[OWN; 32]))?;
    let event = event_of(&MOVE)?;
    let _put = append(&mut disk, &event);
    let bytes = disk.crash(Fill::Kept);
    print!(rt; "a move is appended:")?;
    for byte in bytes.iter().skip(40) {
        print!(rt; " {byte}")?;
    }
    println!(rt)?;
    Ok(())
}

/// Prints what becomes of events that are appended.
pub(crate) fn print_appended(rt: &HostRuntime) -> Result<(), Stop> {
    print_fresh(rt)?;
    print_put(rt, 0, 0, &MOVE)?;
    print_put(rt, 168, 0, &ENTER)?;
    print_put(rt, 162, 11, &ENTER)?;
    print_put(rt, 156, 23, &MOVE)
}
