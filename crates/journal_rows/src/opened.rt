//! Journals that are opened over any disk: what is found in one, and the first call over one that is ready.
ghost use Rattle.std.specs.Prelude.{◌≡◌, IfSome, IsTrue, is_some, true};
ghost use Rattle.eon_model.specs.EventText.{is_event};
ghost use Rattle.journal_record.specs.Told.{event_told};
ghost use Rattle.plan_journal.specs.Moments.{IsDurable};
ghost use Rattle.plan_journal.specs.Prepared.{WasRead};

use crate::bytes::OWN;
use eon_disk::Disk;
use journal_record::Event;
use plan_journal::{AppendFault, NextFault, OpenFault, Opening, examine};

/// The most bytes that a journal may have here.
const LIMIT: u32 = 4096;

/// More events than a journal has here.
const MANY: u32 = 1000;

/// What is found in a journal.
#[derive(Clone, Copy, Debug, PartialEq, Eq)]
pub(crate) enum Found {
    /// So many events, and a gate that is not open.
    Events(u32),
    /// The head is at fault at this offset.
    Head(u64),
    /// At this offset stands no record.
    Record(u64),
    /// It is bound to a network whose digest begins with this byte.
    Other(u8),
    /// A call of the disk failed, or the journal did not end.
    Disk,
}

/// What became of an event that was to be appended.
#[derive(Clone, Copy, Debug, PartialEq, Eq)]
pub(crate) enum Put {
    /// It was, and so many bytes are left.
    Done { left: u32 },
    /// There were too few bytes left.
    Full { need: u32, left: u32 },
    /// A call of the disk failed, or there was nothing that could be opened.
    Disk,
}

// The events from here on, and how the journal ends.
fn count_events<D: Disk>(opening: &mut Opening<'_, D>) -> Found {
    for count in 0..MANY {
        match opening.next() {
            Ok(Some(_)) => {}
            Ok(None) => return Found::Events(count),
            Err(NextFault::BadRecord { at }) => return Found::Record(at),
            Err(NextFault::Disk) => return Found::Disk,
        }
    }
    Found::Disk
}

/// What the network whose digest has this byte finds on a disk.
pub(crate) fn found_on<D: Disk>(disk: &mut D, own: u8) -> Found {
    let head = match examine(disk, LIMIT, &[own; 32]) {
        Ok(head) => head,
        Err(OpenFault::BadHead { at }) => return Found::Head(at),
        Err(OpenFault::Other { kept, own: _ }) => return Found::Other(kept[0]),
        Err(OpenFault::Disk) => return Found::Disk,
    };
    let mut opening = Opening::over(disk, head);
    count_events(&mut opening)
}

// Reads on to the last gate, over so many events at most, and says whether it came there.
fn read_to_gate<D: Disk>(opening: &mut Opening<'_, D>, most: u32) -> bool
    requires durable { IsDurable (D.now opening.old.disk.now) (D.images opening.old.disk.now) }
    ensures same_reference { opening.new.disk.ghost_name ≡ opening.old.disk.ghost_name }
    ensures gate { result ≡ true → is_some opening.new.gate ≡ true }
    ensures read { result ≡ true → IfSome opening.new.gate (WasRead (D.now opening.new.disk.now) (D.images opening.new.disk.now) opening.new.place.at) }
{
    match opening.next() {
        Ok(None) => true,
        Ok(Some(_)) => {
            if most == 0 {
                return false;
            }
            read_to_gate(opening, most - 1)
        }
        Err(_) => false,
    }
}

/// Opens the journal of a disk and makes it ready, and says whether that was done.
pub(crate) fn prepare<D: Disk>(disk: &mut D) -> bool {
    let Ok(head) = examine(disk, LIMIT, &[OWN; 32]) else {
        return false;
    };
    let mut opening = Opening::over(disk, head);
    if !read_to_gate(&mut opening, MANY) {
        return false;
    }
    opening.prepare().is_ok()
}

/// Opens the journal of a disk, makes it ready, and appends an event.
pub(crate) fn append<D: Disk>(disk: &mut D, event: &Event) -> Put
    requires { IsTrue (is_event (event_told event.now)) }
{
    let Ok(head) = examine(disk, LIMIT, &[OWN; 32]) else {
        return Put::Disk;
    };
    let mut opening = Opening::over(disk, head);
    if !read_to_gate(&mut opening, MANY) {
        return Put::Disk;
    }
    let Ok(()) = opening.prepare() else {
        return Put::Disk;
    };
    let mut journal = opening.into_journal();
    match journal.append(event) {
        Ok(()) => Put::Done {
            left: journal.left(),
        },
        Err(AppendFault::Full { need, left }) => Put::Full { need, left },
        Err(AppendFault::Disk) => Put::Disk,
    }
}
