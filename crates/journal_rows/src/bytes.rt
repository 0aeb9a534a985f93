//! The bytes of events and journals, put together by hand.
ghost use Rattle.std.specs.Prelude.{IfOk, IsTrue};
ghost use Rattle.eon_model.specs.EventText.{is_event};
ghost use Rattle.journal_record.specs.Told.{event_told};

use crate::stop::Stop;
use journal_record::{Event, read_event};
use std::alloc::{AllocError, Global};

/// Each byte of the digest of the network.
pub(crate) const OWN: u8 = 7;

/// Each byte of the digest of another one.
pub(crate) const OTHER: u8 = 9;

/// Service s1 enters, `bare`, from node 0 to node 1 at 100 Gbit/s on fibre 0 with slot (-14, 2).
pub(crate) const ENTER: [u8; 17] = [
    1, 2, 0x73, 0x31, 0, 1, 0, 0, 0, 100, 0, 1, 0, 0xff, 0xf2, 0, 2,
];

/// A move of s2 to -14.
pub(crate) const MOVE: [u8; 6] = [3, 2, 0x73, 0x32, 0xff, 0xf2];

/// Service d1 enters, `dual`, from node 0 to node 1 at 100 Gbit/s on fibre 0, with its backup on fibres 1 and 2, both with
/// slot (-14, 2).
pub(crate) const BACKED: [u8; 24] = [
    1, 2, 0x64, 0x31, 0, 1, 0, 0, 0, 100, 2, 1, 0, 0xff, 0xf2, 0, 2, 2, 1, 2, 0xff, 0xf2, 0, 2,
];

/// The event of these bytes.
pub(crate) fn event_of(bytes: &[u8]) -> Result<Event, Stop>
    ensures { IfOk result (λ e. IsTrue (is_event (event_told e))) }
{
    match read_event(bytes) {
        Ok(event) => Ok(event),
        Err(_) => Err(Stop::Event),
    }
}

/// A head with this byte as each one of its digest.
pub(crate) fn head_of(alloc: Global, digest: u8) -> Result<Vec<u8>, AllocError> {
    let mut bytes = b"EONJRNL1".to_vec(alloc)?;
    bytes.extend_from_slice(&[digest; 32])?;
    Ok(bytes)
}

/// Puts a gate, a length, a number and an event.
pub(crate) fn put_record(
    bytes: &mut Vec<u8>,
    gate: u8,
    len: u16,
    number: u32,
    event: &[u8],
) -> Result<(), AllocError> {
    bytes.push(gate)?;
    bytes.extend_from_slice(&len.to_be_bytes())?;
    bytes.extend_from_slice(&number.to_be_bytes())?;
    bytes.extend_from_slice(event)
}

/// The journal of the network with one record, behind this gate and with this length and this number, and a gate of 0.
pub(crate) fn with_record(
    alloc: Global,
    gate: u8,
    len: u16,
    number: u32,
    event: &[u8],
) -> Result<Vec<u8>, AllocError> {
    let mut bytes = head_of(alloc, OWN)?;
    put_record(&mut bytes, gate, len, number, event)?;
    bytes.push(0)?;
    Ok(bytes)
}

/// The journal of the network with a move, and behind this gate the record of an enter, and a gate of 0: 78 bytes.
pub(crate) fn move_and_enter(alloc: Global, gate: u8) -> Result<Vec<u8>, AllocError> {
    let mut bytes = head_of(alloc, OWN)?;
    put_record(&mut bytes, 1, 6, 1, &MOVE)?;
    put_record(&mut bytes, gate, 17, 2, &ENTER)?;
    bytes.push(0)?;
    Ok(bytes)
}

/// The journal of the network with so many enters, and then so many moves.
pub(crate) fn filled(alloc: Global, enters: u32, moves: u32) -> Result<Vec<u8>, AllocError> {
    let mut bytes = head_of(alloc, OWN)?;
    for i in 0..enters {
        put_record(&mut bytes, 1, 17, i.wrapping_add(1), &ENTER)?;
    }
    put_moves(&mut bytes, enters, moves)?;
    bytes.push(0)?;
    Ok(bytes)
}

// Puts so many moves behind so many records.
fn put_moves(bytes: &mut Vec<u8>, before: u32, moves: u32) -> Result<(), AllocError> {
    for i in 0..moves {
        put_record(bytes, 1, 6, before.wrapping_add(i).wrapping_add(1), &MOVE)?;
    }
    Ok(())
}
