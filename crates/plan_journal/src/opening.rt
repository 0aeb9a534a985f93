//! A journal that is read, and then made ready for events.
ghost use Rattle.std.specs.Prelude.{◌≡◌, ◌+◌, ◌<◌, ◌≤◌, ◌^◌, [], ◌∷◌, ◌++◌, ℕ, List, length, take, None, Some, is_some, true, false, IfSome, IfOk, OnOk, OnErr, IsTrue, option_map};
ghost use Rattle.eon_model.specs.Disk.{LeavesOnly};
ghost use Rattle.eon_model.specs.EventText.{is_event};
ghost use Rattle.eon_model.specs.JournalMoments.{IsClosing};
ghost use Rattle.eon_outside.specs.Faults.{Counts};
ghost use Rattle.journal_record.specs.Told.{event_told};
ghost use Rattle.plan_journal.specs.Faults.{counted_if, next_failed};
ghost use Rattle.plan_journal.specs.Moments.{IsDurable, IsReady, OnlyReads};
ghost use Rattle.plan_journal.specs.Opened.{IsNext, IsBehind, has_ended};
ghost use Rattle.plan_journal.specs.Prepared.{WasRead, closed_at};

use crate::durable::{cut_synced, write_synced};
use crate::fault::NextFault;
use crate::head::Head;
use crate::journal::Journal;
use crate::place::Place;
use crate::walk::{Kept, Walked, walk_record};
use eon_disk::{Disk, DiskFailed};

// Closes a gate that was left half open. Before that no byte behind it may go, since the gate might be read as open then.
fn close_gate<D: Disk>(disk: &mut D, at: u64, gate: u8) -> Result<(), DiskFailed>
    requires read { WasRead (D.now disk.old) (D.images disk.old) at gate }
    requires fits { at + 1 ≤ 2 ^ 62 }
    ensures read { OnOk result (WasRead (D.now disk.new) (D.images disk.new) at 0) }
    ensures front { OnOk result (option_map (take at) (D.now disk.new) ≡ option_map (take at) (D.now disk.old)) }
    ensures moments { IfSome (D.now disk.old) (λ bytes. LeavesOnly D.clock D.images_since disk.old disk.new (IsClosing bytes at)) }
    ensures counts { Counts (D.faults disk.old) (D.faults disk.new) result }
    ensures asked { D.asked disk.new ≡ D.asked disk.old }
{
    if gate == 0 {
        return Ok(());
    }
    write_synced(disk, at, &[0])
}

// Cuts off what stands behind a gate of 0.
fn cut_behind<D: Disk>(disk: &mut D, at: u64) -> Result<(), DiskFailed>
    requires read { WasRead (D.now disk.old) (D.images disk.old) at 0 }
    requires fits { at + 1 ≤ 2 ^ 62 }
    ensures ready { OnOk result (IsReady (D.now disk.new) (D.images disk.new) at) }
    ensures bytes { OnOk result (D.now disk.new ≡ option_map (closed_at at) (D.now disk.old)) }
    ensures moments { IfSome (D.now disk.old) (λ bytes. LeavesOnly D.clock D.images_since disk.old disk.new (IsClosing bytes at)) }
    ensures counts { Counts (D.faults disk.old) (D.faults disk.new) result }
    ensures asked { D.asked disk.new ≡ D.asked disk.old }
{
    let len = match disk.len() {
        Ok(len) => len,
        Err(DiskFailed) => return Err(DiskFailed),
    };
    if len <= at + 1 {
        return Ok(());
    }
    cut_synced(disk, at + 1)
}

// Makes a journal ready whose last gate is not open.
fn make_ready<D: Disk>(disk: &mut D, at: u64, gate: u8) -> Result<(), DiskFailed>
    requires read { WasRead (D.now disk.old) (D.images disk.old) at gate }
    requires fits { at + 1 ≤ 2 ^ 62 }
    ensures ready { OnOk result (IsReady (D.now disk.new) (D.images disk.new) at) }
    ensures bytes { OnOk result (D.now disk.new ≡ option_map (closed_at at) (D.now disk.old)) }
    ensures moments { IfSome (D.now disk.old) (λ bytes. LeavesOnly D.clock D.images_since disk.old disk.new (IsClosing bytes at)) }
    ensures counts { Counts (D.faults disk.old) (D.faults disk.new) result }
    ensures asked { D.asked disk.new ≡ D.asked disk.old }
{
    match close_gate(disk, at, gate) {
        Ok(()) => cut_behind(disk, at),
        Err(DiskFailed) => Err(DiskFailed),
    }
}

/// A journal that is being read over its disk, which it borrows alone. Its head was examined.
#[derive(Drop)]
pub struct Opening<'d, D: Disk> {
    /// Where it stands.
    pub disk: &'d mut D,
    /// The gate that is read next.
    pub place: Place,
    /// The last gate, once it was read.
    pub gate: Option<u8>,
    /// Whether it was made ready.
    pub ready: bool,
}

impl<'d, D: Disk> Opening<'d, D> {
    /// Reads the journal of this disk, whose head was examined, from its first record on.
    pub fn over(disk: &'d mut D, head: Head) -> Opening<'d, D>
        ensures same_reference { result.disk.ghost_name ≡ disk.entry.ghost_name }
        ensures same { result.disk.now ≡ disk.old }
        ensures limit { result.place.limit ≡ head.limit }
        ensures at { result.place.at ≡ 40 }
        ensures number { result.place.number ≡ 1 }
        ensures gate { result.gate ≡ None }
        ensures ready { result.ready ≡ false }
    {
        Opening {
            disk,
            place: Place::first(head.limit),
            gate: None,
            ready: false,
        }
    }

    /// The next event, and none where a gate comes next that is not open.
    pub fn next(&mut self) -> Result<Option<Kept>, NextFault>
        ensures same_reference { self.new.disk.ghost_name ≡ self.old.disk.ghost_name }
        ensures told { IfSome (D.now self.old.disk.now) (λ bytes. IsNext bytes self.old.place.limit self.old.place.at self.old.place.number self.new.gate result) }
        ensures in_range { IfOk result (λ kept. IfSome kept (λ k. IsTrue (is_event (event_told k.event)))) }
        ensures limit { self.new.place.limit ≡ self.old.place.limit }
        ensures behind { IsBehind self.old.place.at self.old.place.number self.new.place.at self.new.place.number result }
        ensures gate { is_some self.new.gate ≡ has_ended result }
        ensures ended { has_ended result ≡ true → IsDurable (D.now self.old.disk.now) (D.images self.old.disk.now) → IfSome self.new.gate (WasRead (D.now self.new.disk.now) (D.images self.new.disk.now) self.new.place.at) }
        ensures ready { self.new.ready ≡ false }
        ensures durable { IsDurable (D.now self.old.disk.now) (D.images self.old.disk.now) → IsDurable (D.now self.new.disk.now) (D.images self.new.disk.now) }
        ensures reads { OnlyReads D.now D.images D.clock D.images_since self.old.disk.now self.new.disk.now }
        ensures counts { D.faults self.new.disk.now ≡ counted_if (next_failed result) (D.faults self.old.disk.now) }
        ensures asked { D.asked self.new.disk.now ≡ D.asked self.old.disk.now }
    {
        self.ready = false;
        self.gate = None;
        let at = self.place.at as u64;
        let walked = match walk_record(self.disk, self.place) {
            Ok(walked) => walked,
            Err(DiskFailed) => return Err(NextFault::Disk),
        };
        match walked {
            Walked::Record { event, taken } => {
                self.place = self.place.after(taken);
                Ok(Some(Kept { at, event }))
            }
            Walked::Gate { gate } => {
                self.gate = Some(gate);
                Ok(None)
            }
            Walked::Bad => Err(NextFault::BadRecord { at }),
        }
    }

    /// Makes the journal ready for events, once the last gate was read: a gate that a stop left half open is closed, and only
    /// then, where bytes stand behind it, they are cut off. After a failure the journal is to be opened again.
    pub fn prepare(&mut self) -> Result<(), DiskFailed>
        requires ended { is_some self.old.gate ≡ true }
        requires read { IfSome self.old.gate (WasRead (D.now self.old.disk.now) (D.images self.old.disk.now) self.old.place.at) }
        ensures same_reference { self.new.disk.ghost_name ≡ self.old.disk.ghost_name }
        ensures place { self.new.place ≡ self.old.place }
        ensures done { OnOk result (self.new.ready ≡ true) }
        ensures not_done { OnErr result (self.new.ready ≡ false) }
        ensures ready { OnOk result (IsReady (D.now self.new.disk.now) (D.images self.new.disk.now) self.new.place.at) }
        ensures bytes { OnOk result (D.now self.new.disk.now ≡ option_map (closed_at self.old.place.at) (D.now self.old.disk.now)) }
        ensures moments { IfSome (D.now self.old.disk.now) (λ bytes. LeavesOnly D.clock D.images_since self.old.disk.now self.new.disk.now (IsClosing bytes self.old.place.at)) }
        ensures counts { Counts (D.faults self.old.disk.now) (D.faults self.new.disk.now) result }
        ensures asked { D.asked self.new.disk.now ≡ D.asked self.old.disk.now }
    {
        self.ready = false;
        let gate = match self.gate {
            Some(gate) => gate,
            None => unreachable!(),
        };
        make_ready(self.disk, self.place.at as u64, gate)?;
        self.ready = true;
        Ok(())
    }

    /// The journal, once it was made ready.
    pub fn into_journal(self) -> Journal<'d, D>
        requires { self.ready ≡ true }
        ensures same_reference { result.disk.ghost_name ≡ self.entry.disk.ghost_name }
        ensures same { result.disk.now ≡ self.entry.disk.now }
        ensures place { result.place ≡ self.entry.place }
        ensures not_spent { result.spent ≡ false }
    {
        Journal {
            disk: self.disk,
            place: self.place,
            spent: false,
        }
    }
}
