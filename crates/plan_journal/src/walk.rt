//! A journal is read record by record, each in one piece of a fixed buffer.
ghost use Rattle.std.specs.Prelude.{◌≡◌, ◌+◌, ◌-◌, ◌<◌, ◌≤◌, [], ◌∷◌, length, take, drop, slice_index, IfOk, IfSome, None, IsTrue, false, nat_le, ◌&&◌};
ghost use Rattle.std.specs.Int.{w16, w32, from_be_bytes};
ghost use Rattle.eon_model.specs.JournalFault.{is_record_at, told_event};
ghost use Rattle.eon_model.specs.EventText.{event_text, is_event};
ghost use Rattle.eon_model.specs.Journal.{left_at};
ghost use Rattle.eon_outside.specs.Faults.{Counts};
ghost use Rattle.journal_record.specs.Told.{event_told};
ghost use Rattle.plan_journal.specs.Moments.{OnlyReads};
ghost use Rattle.plan_journal.specs.Walked.{Stands, HasRoom};

use crate::place::Place;
use eon_disk::{Disk, DiskFailed};
use journal_record::{Event, read_event};

/// The most bytes of a record, with its gate and the next one.
const MOST_BYTES: usize = 185;

/// The gate in front of a record.
const OPEN: u8 = 1;

/// What a record takes beside its event: a gate, the length and the number.
const BESIDE_EVENT: usize = 7;

/// The same with the next gate.
const WITH_NEXT_GATE: u32 = 8;

/// An event of the journal, and the offset of its gate.
#[derive(Drop)]
pub struct Kept {
    pub at: u64,
    pub event: Event,
}

/// What stands at a gate.
#[derive(Drop)]
pub(crate) enum Walked {
    /// The record of this event, which takes so many bytes.
    Record { event: Event, taken: u32 },
    /// A gate that is not open.
    Gate { gate: u8 },
    /// No gate, or an open one without a record.
    Bad,
}

#[tactic(auto, using(journal_record::proofs::FieldSteps::two_of))]
fn two(bytes: &[u8]) -> u16
    requires { length bytes.now ≡ 2 }
    ensures { result ≡ from_be_bytes w16 bytes.now }
{
    u16::from_be_bytes([bytes[0], bytes[1]])
}

#[tactic(auto, using(journal_record::proofs::FieldSteps::four_of))]
fn four(bytes: &[u8]) -> u32
    requires { length bytes.now ≡ 4 }
    ensures { result ≡ from_be_bytes w32 bytes.now }
{
    u32::from_be_bytes([bytes[0], bytes[1], bytes[2], bytes[3]])
}

// Whether an event of so many bytes, the six in front of it and a gate are whole behind a gate, and within what is left.
fn is_whole(len: u16, behind: usize, room: u32) -> bool
    ensures { result ≡ (nat_le (len + 7) behind && nat_le (len + 8) room) }
{
    len as usize + BESIDE_EVENT <= behind && len as u32 + WITH_NEXT_GATE <= room
}

// The event of the record behind an open gate, where one stands there. These are the bytes behind the gate, as far as they may
// belong to it, and so many are left from the gate on.
fn event_behind(behind: &[u8], room: u32, number: u32) -> Option<Event>
    ensures none { result ≡ None → is_record_at (1 ∷ behind.now) room 0 number ≡ false }
    ensures some { IfSome result (λ e. IsTrue (is_record_at (1 ∷ behind.now) room 0 number)) }
    ensures long { IfSome result (λ e. 7 ≤ length behind.now) }
    ensures in_range { IfSome result (λ e. IsTrue (is_event (event_told e))) }
    ensures bytes { IfSome result (λ e. event_text (event_told e) ≡ told_event behind.now) }
{
    if behind.len() < BESIDE_EVENT {
        return None;
    }
    let len = two(&behind[..2]);
    if !is_whole(len, behind.len(), room) {
        return None;
    }
    if four(&behind[2..6]) != number {
        return None;
    }
    match read_event(&behind[6..6 + len as usize]) {
        Ok(event) => Some(event),
        Err(_) => None,
    }
}

// What stands at the gate that these bytes begin with. They go as far as the longest record, or the journal ends with
// them, and so many are left from the gate on.
fn read_gate(bytes: &[u8], room: u32, number: u32) -> Walked
    requires { length bytes.now ≤ 185 }
    ensures { Stands bytes.now room 0 number result }
{
    let Some((gate, behind)) = bytes.split_first() else {
        return Walked::Bad;
    };
    if *gate != OPEN {
        return Walked::Gate { gate: *gate };
    }
    match event_behind(behind, room, number) {
        Some(event) => {
            let taken = two(&behind[..2]) as u32 + BESIDE_EVENT as u32;
            Walked::Record { event, taken }
        }
        None => Walked::Bad,
    }
}

/// Reads what stands at this gate.
pub(crate) fn walk_record<D: Disk>(disk: &mut D, place: Place) -> Result<Walked, DiskFailed>
    ensures told { IfSome (D.now disk.old) (λ bytes. IfOk result (Stands bytes place.limit place.at place.number)) }
    ensures room { IfOk result (HasRoom (left_at place.limit place.at)) }
    ensures reads { OnlyReads D.now D.images D.clock D.images_since disk.old disk.new }
    ensures counts { Counts (D.faults disk.old) (D.faults disk.new) result }
    ensures asked { D.asked disk.new ≡ D.asked disk.old }
{
    let mut piece = [0; MOST_BYTES];
    match disk.read_at(place.at as u64, &mut piece) {
        Ok(count) => Ok(read_gate(&piece[..count], place.limit - place.at, place.number)),
        Err(DiskFailed) => Err(DiskFailed),
    }
}
