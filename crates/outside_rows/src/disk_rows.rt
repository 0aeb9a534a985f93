//! Disks in memory, what a crash leaves of them, and a file of the machine.
ghost use Rattle.std.specs.Prelude.{◌≡◌, Some, None, codes};

use crate::{Stop, report};
use eon_disk::{Deck, Disk, DiskFailed, FileDeck, Fill, MemDisk};
use std::alloc::{AllocError, Global};

/// A disk of the bytes "abcd", with this room and this stop, on which "XY" is written at the front.
fn written_disk(alloc: Global, room: usize, stop: Option<u64>) -> Result<MemDisk, AllocError> {
    let mut disk = MemDisk::new(alloc, b"abcd".to_vec(alloc)?, room, Vec::new(alloc), stop)?;
    let _attached = disk.attach("JOURNAL", false);
    let _written = disk.write_at(0, b"XY");
    Ok(disk)
}

/// Whether a crash leaves this.
fn is_left(disk: MemDisk, fill: Fill, wanted: &[u8]) -> bool {
    disk.crash(fill).as_slice() == wanted
}

/// A synced piece stays as it was written.
fn synced_stays(alloc: Global) -> Result<bool, AllocError> {
    let mut disk = written_disk(alloc, 200, None)?;
    Ok(disk.sync().is_ok() && is_left(disk, Fill::Byte(b'-'), b"XYcd"))
}

/// Of a disk that was cut to nothing nothing is left.
fn cut_leaves_nothing(alloc: Global) -> Result<bool, AllocError> {
    let mut disk = written_disk(alloc, 200, None)?;
    Ok(disk.cut(0).is_ok() && is_left(disk, Fill::Byte(b'-'), b""))
}

/// Attaches a disk of the bytes "abcd", and writes, syncs, cuts, and writes and syncs again, until a call fails.
fn run_script<D: Deck>(disk: &mut D) -> Result<(), DiskFailed>
    requires { D.now disk.old ≡ Some (codes "abcd") }
{
    disk.attach("JOURNAL", false)?;
    disk.write_at(0, b"XY")?;
    disk.sync()?;
    disk.cut(2)?;
    disk.write_at(2, b"P")?;
    disk.sync()
}

/// Whether a crash leaves this after the script, where the disk stopped at this call.
fn leaves(alloc: Global, stop: u64, fill: Fill, wanted: &[u8]) -> Result<bool, AllocError> {
    let bytes = b"abcd".to_vec(alloc)?;
    let mut disk = MemDisk::new(alloc, bytes, 500, Vec::new(alloc), Some(stop))?;
    let _ran = run_script(&mut disk);
    Ok(is_left(disk, fill, wanted))
}

/// Tries the script with a stop at this call: what a crash leaves as it was written, and where what was not synced is all 1.
fn report_stop(
    rt: &HostRuntime,
    name: &str,
    stop: u64,
    kept: &[u8],
    ones: &[u8],
) -> Result<(), Stop> {
    let holds = leaves(rt.alloc(), stop, Fill::Kept, kept)?
        && leaves(rt.alloc(), stop, Fill::Byte(1), ones)?;
    report(rt, name, holds)
}

/// Tries the script with a stop at each of its calls.
fn report_stops(rt: &HostRuntime) -> Result<(), Stop> {
    report_stop(rt, "stopped at attach", 1, b"abcd", b"abcd")?;
    report_stop(rt, "stopped at the write", 2, b"XYcd", b"\x01\x01cd")?;
    report_stop(rt, "stopped at the sync", 3, b"XYcd", b"\x01\x01cd")?;
    report_stop(rt, "stopped at the cut", 4, b"XYcd", b"XYcd")?;
    report_stop(rt, "stopped behind the cut", 5, b"XYP", b"XY\x01")?;
    report_stop(rt, "stopped at the second sync", 6, b"XYP", b"XY\x01")?;
    report_stop(rt, "not stopped", 7, b"XYP", b"XYP")
}

/// A write that wants more room than there is does not take place, and its sync fails where there is none left.
fn room_ends(alloc: Global) -> Result<bool, AllocError> {
    let none = written_disk(alloc, 65, None)?;
    let mut some = written_disk(alloc, 66, None)?;
    Ok(
        is_left(none, Fill::Kept, b"abcd")
            && some.len() == Ok(4)
            && some.sync() == Err(DiskFailed)
            && is_left(some, Fill::Byte(b'-'), b"--cd"),
    )
}

/// A file of the machine that is not there.
fn missing_file_fails(rt: &HostRuntime) -> bool {
    let mut deck = FileDeck::new(rt);
    let unattached = deck.len() == Err(DiskFailed);
    let missing = deck.attach("missing.bin", false) == Err(DiskFailed);
    unattached && missing && deck.faults() == 2
}

/// Makes a file, writes it, writes over a part, cuts it and syncs it.
fn write_file<D: Deck>(deck: &mut D) -> Result<(), DiskFailed>
    requires { D.now deck.old ≡ None }
    ensures { D.now deck.new ≡ None }
{
    deck.attach("made.bin", true)?;
    deck.cut(0)?;
    deck.write_at(0, b"abcdef")?;
    deck.write_at(2, b"XY")?;
    deck.cut(5)?;
    deck.sync()
}

/// Whether there are these bytes from here on.
fn has_at<D: Deck>(deck: &mut D, at: u64, wanted: &[u8]) -> Result<bool, DiskFailed>
    ensures { D.now deck.new ≡ D.now deck.old }
{
    let mut bytes = [0; 8];
    let count = deck.read_at(at, &mut bytes)?;
    Ok(bytes.get(..count) == Some(wanted))
}

/// What was written to a file of the machine is read from it.
fn file_is_read<D: Deck>(deck: &mut D) -> Result<bool, DiskFailed>
    requires { D.now deck.old ≡ None }
{
    write_file(deck)?;
    let long = deck.len()? == 5;
    let middle = has_at(deck, 1, b"bXYe")?;
    let behind = has_at(deck, 7, b"")?;
    Ok(long && middle && behind)
}

/// Tries each row.
pub(crate) fn report_all(rt: &HostRuntime) -> Result<(), Stop> {
    let alloc = rt.alloc();
    let kept = is_left(written_disk(alloc, 200, None)?, Fill::Kept, b"XYcd");
    report(rt, "a crash keeps what was written", kept)?;
    let filled = is_left(written_disk(alloc, 200, None)?, Fill::Byte(b'-'), b"--cd");
    report(rt, "a crash fills what was written", filled)?;
    report(rt, "a synced piece stays", synced_stays(alloc)?)?;
    report(rt, "a cut leaves nothing", cut_leaves_nothing(alloc)?)?;
    report_stops(rt)?;
    report(rt, "the room ends", room_ends(alloc)?)?;
    report(rt, "a missing file fails", missing_file_fails(rt))?;
    let read = file_is_read(&mut FileDeck::new(rt)) == Ok(true);
    report(rt, "a file is written, cut and read", read)
}
