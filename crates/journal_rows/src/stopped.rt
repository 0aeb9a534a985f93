//! Disks that stop at a call, and what is found in what a crash leaves.

use crate::bytes::{ENTER, OWN, event_of, filled, move_and_enter};
use crate::found::print_found;
use crate::held::{disk_of, found_in};
use crate::opened::{append, prepare};
use crate::stop::Stop;
use eon_disk::{Fill, MemDisk};
use plan_journal::init;

// Prints what a crash leaves: its length, and what is found in it.
fn print_crash(
    rt: &HostRuntime,
    call: &str,
    stop: u64,
    disk: MemDisk,
    fill: Fill,
) -> Result<(), Stop> {
    let alloc = rt.alloc();
    let bytes = disk.crash(fill);
    let len = bytes.len();
    let case = match fill {
        Fill::Kept => format!(in alloc; "{call} stop {stop} kept: {len} bytes")?,
        Fill::Byte(byte) => format!(in alloc; "{call} stop {stop} byte {byte}: {len} bytes")?,
    };
    print_found(rt, case.as_str(), found_in(alloc, bytes)?)
}

// Stops at this call of `init`.
fn stop_init(rt: &HostRuntime, stop: u64, fill: Fill) -> Result<(), Stop> {
    let mut disk = disk_of(rt.alloc(), Vec::new(rt.alloc()), Some(stop))?;
    let _made = init(&mut disk, &[OWN; 32]);
    print_crash(rt, "init", stop, disk, fill)
}

// Stops at this call of `prepare` where the last gate is 7. Six calls that read come before.
fn stop_prepare(rt: &HostRuntime, stop: u64, fill: Fill) -> Result<(), Stop> {
    let bytes = move_and_enter(rt.alloc(), 7)?;
    let mut disk = disk_of(rt.alloc(), bytes, Some(stop.saturating_add(6)))?;
    let _ready = prepare(&mut disk);
    print_crash(rt, "prepare", stop, disk, fill)
}

// Stops at this call of `append` to a journal without events. Five calls come before, by which it is opened and made ready.
fn stop_append(rt: &HostRuntime, stop: u64, fill: Fill) -> Result<(), Stop> {
    let event = event_of(&ENTER)?;
    let bytes = filled(rt.alloc(), 0, 0)?;
    let mut disk = disk_of(rt.alloc(), bytes, Some(stop.saturating_add(5)))?;
    let _put = append(&mut disk, &event);
    print_crash(rt, "append", stop, disk, fill)
}

// Stops at each call, and behind the last one.
fn print_stops(rt: &HostRuntime, fill: Fill) -> Result<(), Stop> {
    for stop in 1..5u64 {
        stop_init(rt, stop, fill)?;
    }
    for stop in 1..7u64 {
        stop_prepare(rt, stop, fill)?;
    }
    for stop in 1..6u64 {
        stop_append(rt, stop, fill)?;
    }
    Ok(())
}

/// Prints what is found after each stop, with each fill.
pub(crate) fn print_stopped(rt: &HostRuntime) -> Result<(), Stop> {
    print_stops(rt, Fill::Kept)?;
    print_stops(rt, Fill::Byte(0))?;
    print_stops(rt, Fill::Byte(1))?;
    print_stops(rt, Fill::Byte(7))
}
