//! Events as bytes: written back, cut short, and damaged in one place.

use crate::bytes::{BACKED, ENTER, MOVE, event_of};
use crate::stop::Stop;
use journal_record::{Event, EventBuf, EventFault, read_event, write_event};

// Whether the event of these bytes is written as these bytes.
fn is_written_back(bytes: &[u8]) -> bool {
    let Ok(event) = read_event(bytes) else {
        return false;
    };
    let mut out = EventBuf::new();
    let count = write_event(&event, &mut out);
    out.bytes() == bytes && count == bytes.len()
}

// Whether these bytes are too few for an event.
fn is_short(bytes: &[u8]) -> bool {
    matches!(read_event(bytes), Err(EventFault::Short))
}

// Whether each front of these bytes is too short.
fn has_short_fronts(bytes: &[u8]) -> bool {
    for end in 0..bytes.len() {
        if !is_short(&bytes[..end]) {
            return false;
        }
    }
    true
}

// Prints whether an event is written back, and its fronts are too short.
fn print_event(rt: &HostRuntime, case: &str, bytes: &[u8]) -> Result<(), Stop> {
    if is_written_back(bytes) {
        println!(rt; "{case}: written back")?;
    }
    if has_short_fronts(bytes) {
        println!(rt; "{case}: each front short")?;
    }
    Ok(())
}

// Prints the fault of bytes.
fn print_fault(rt: &HostRuntime, case: &str, bytes: &[u8]) -> Result<(), Stop> {
    match read_event(bytes) {
        Ok(_) => println!(rt; "{case}: an event")?,
        Err(EventFault::Short) => println!(rt; "{case}: short")?,
        Err(EventFault::Rest) => println!(rt; "{case}: rest")?,
        Err(EventFault::Kind) => println!(rt; "{case}: kind")?,
        Err(EventFault::Field { at }) => println!(rt; "{case}: field {at}")?,
    }
    Ok(())
}

// Prints the fault of the enter with these two bytes at this place.
fn print_damaged(rt: &HostRuntime, case: &str, at: usize, bytes: [u8; 2]) -> Result<(), Stop> {
    let mut damaged = ENTER.to_vec(rt.alloc())?;
    for (i, byte) in bytes.iter().enumerate() {
        if let Some(place) = damaged.get_mut(at.saturating_add(i)) {
            *place = *byte;
        }
    }
    print_fault(rt, case, damaged.as_slice())
}

// The enter, damaged in each field.
fn print_fields(rt: &HostRuntime) -> Result<(), Stop> {
    print_damaged(rt, "no name", 1, [0, 0x73])?;
    print_damaged(rt, "source 64", 4, [64, 1])?;
    print_damaged(rt, "rate 0", 8, [0, 0])?;
    print_damaged(rt, "rate 60001", 8, [0xea, 0x61])?;
    print_damaged(rt, "class 3", 10, [3, 1])?;
    print_damaged(rt, "no fibre", 11, [0, 0])?;
    print_damaged(rt, "64 fibres", 11, [64, 0])?;
    print_damaged(rt, "fibre 128", 12, [128, 0xff])?;
    print_damaged(rt, "width 0", 15, [0, 0])?;
    print_damaged(rt, "width 513", 15, [2, 1])?;
    let mut long = [0x61; 35];
    long[0] = 2;
    long[1] = 33;
    print_fault(rt, "a name of 33", &long)
}

/// Prints what becomes of the bytes of events.
pub(crate) fn print_events(rt: &HostRuntime) -> Result<(), Stop> {
    print_event(rt, "enter", &ENTER)?;
    print_event(rt, "move", &MOVE)?;
    print_event(rt, "enter with a backup", &BACKED)?;
    if let Event::Push { name: _, to } = event_of(&MOVE)? {
        println!(rt; "move to {to}")?;
    }
    print_fault(rt, "a byte behind a finish", &[4, 1, 0x61, 0])?;
    print_fault(rt, "kind 0 alone", &[0, 1, 0x61])?;
    print_fault(rt, "kind 9", &[9])?;
    print_fields(rt)
}
