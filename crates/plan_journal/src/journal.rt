//! A journal that is ready for events.
ghost use Rattle.std.specs.Prelude.{◌≡◌, ◌+◌, ◌≤◌, ◌<◌, ◌^◌, [], ◌∷◌, ◌++◌, ℕ, List, length, take, false, IfSome, IsTrue, OnOk, OnErr, option_map};
ghost use Rattle.eon_model.specs.Disk.{LeavesOnly};
ghost use Rattle.eon_model.specs.EventText.{is_event, room_for};
ghost use Rattle.eon_model.specs.Journal.{record_body, left_at};
ghost use Rattle.eon_model.specs.JournalMoments.{IsAppending};
ghost use Rattle.eon_outside.specs.Faults.{Counts};
ghost use Rattle.journal_record.specs.Told.{event_told};
ghost use Rattle.plan_journal.specs.Appended.{TellsFull, OnFull, with_record};
ghost use Rattle.plan_journal.specs.Faults.{counted_if, append_failed};
ghost use Rattle.plan_journal.specs.Moments.{IsReady};

use crate::durable::write_synced;
use crate::fault::AppendFault;
use crate::place::Place;
use crate::record::RecordBuf;
use eon_disk::{Disk, DiskFailed};
use journal_record::{Event, need};

// Writes a record and the next gate behind the closed gate, and only when these are on the disk opens the gate.
fn write_record<D: Disk>(disk: &mut D, at: u64, behind: &[u8]) -> Result<(), DiskFailed>
    requires ready { IsReady (D.now disk.old) (D.images disk.old) at }
    requires fits { at + 1 + length behind.now ≤ 2 ^ 62 }
    requires gate { (body : List ℕ) × (behind.now ≡ body ++ 0 ∷ []) }
    ensures bytes { OnOk result (D.now disk.new ≡ option_map (with_record at behind.now) (D.now disk.old)) }
    ensures ready { OnOk result (IsReady (D.now disk.new) (D.images disk.new) (at + length behind.now)) }
    ensures moments { IfSome (D.now disk.old) (λ bytes. (body : List ℕ) → behind.now ≡ body ++ 0 ∷ [] → LeavesOnly D.clock D.images_since disk.old disk.new (IsAppending (take at bytes) body)) }
    ensures counts { Counts (D.faults disk.old) (D.faults disk.new) result }
    ensures asked { D.asked disk.new ≡ D.asked disk.old }
{
    match write_synced(disk, at + 1, behind) {
        Ok(()) => write_synced(disk, at, &[1]),
        Err(DiskFailed) => Err(DiskFailed),
    }
}

/// A journal over its disk, which it borrows alone. Its last gate is closed, and events are appended behind it.
#[derive(Drop)]
pub struct Journal<'d, D: Disk> {
    /// Where it stands.
    pub disk: &'d mut D,
    /// Its last gate.
    pub place: Place,
    /// Whether a call of the disk failed. The journal is to be opened again then.
    pub spent: bool,
}

impl<'d, D: Disk> Journal<'d, D> {
    /// How many bytes are left for records.
    pub fn left(&self) -> u32
        ensures { result ≡ left_at self.now.place.limit self.now.place.at }
    {
        self.place.left()
    }

    /// Appends an event, whose fields are in range. When it is done the event is on the disk, and a crash before that
    /// leaves the journal with the event or without it.
    pub fn append(&mut self, e: &Event) -> Result<(), AppendFault>
        requires in_range { IsTrue (is_event (event_told e.now)) }
        requires not_spent { self.old.spent ≡ false }
        requires ready { IsReady (D.now self.old.disk.now) (D.images self.old.disk.now) self.old.place.at }
        ensures same_reference { self.new.disk.ghost_name ≡ self.old.disk.ghost_name }
        ensures full { TellsFull (room_for (event_told e.now)) (left_at self.old.place.limit self.old.place.at) result }
        ensures untouched { OnFull result (self.new.disk.now ≡ self.old.disk.now) }
        ensures limit { self.new.place.limit ≡ self.old.place.limit }
        ensures at { OnOk result (self.new.place.at ≡ self.old.place.at + room_for (event_told e.now)) }
        ensures number { OnOk result (self.new.place.number ≡ self.old.place.number + 1) }
        ensures stays { OnErr result (self.new.place ≡ self.old.place) }
        ensures spent { self.new.spent ≡ append_failed result }
        ensures bytes { OnOk result (D.now self.new.disk.now ≡ option_map (with_record self.old.place.at (record_body self.old.place.number (event_told e.now) ++ 0 ∷ [])) (D.now self.old.disk.now)) }
        ensures ready { OnOk result (IsReady (D.now self.new.disk.now) (D.images self.new.disk.now) self.new.place.at) }
        ensures moments { IfSome (D.now self.old.disk.now) (λ bytes. LeavesOnly D.clock D.images_since self.old.disk.now self.new.disk.now (IsAppending (take self.old.place.at bytes) (record_body self.old.place.number (event_told e.now)))) }
        ensures counts { D.faults self.new.disk.now ≡ counted_if (append_failed result) (D.faults self.old.disk.now) }
        ensures asked { D.asked self.new.disk.now ≡ D.asked self.old.disk.now }
    {
        let need = need(e);
        let left = self.left();
        if need > left {
            return Err(AppendFault::Full { need, left });
        }
        let record = RecordBuf::of(self.place.number, e);
        match write_record(self.disk, self.place.at as u64, record.bytes()) {
            Ok(()) => {
                self.place = self.place.after(need);
                Ok(())
            }
            Err(DiskFailed) => {
                self.spent = true;
                Err(AppendFault::Disk)
            }
        }
    }
}
