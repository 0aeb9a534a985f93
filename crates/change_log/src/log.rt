//! Logs, and why one does not keep an event.
ghost use Rattle.std.specs.Prelude.{◌≡◌, ◌++◌, ℕ, List, [], Option, None, false, IsTrue};
ghost use Rattle.std.specs.Option.{option_to_list};
ghost use Rattle.eon_model.specs.Answers.{left_after};
ghost use Rattle.eon_model.specs.Events.{Event as Told};
ghost use Rattle.eon_model.specs.EventText.{is_event, room_for};
ghost use Rattle.change_log.specs.Keeping.{TellsRoom, kept_by, doubt_by, keep_failed};
ghost use Rattle.journal_record.specs.Told.{event_told};
ghost use Rattle.plan_journal.specs.Faults.{counted_if};

use journal_record::Event;

/// Why an event was not kept. After `Disk` the log's count of faults is one higher, and a later reader may find the event
/// kept or not.
#[derive(Clone, Copy, Debug, PartialEq, Eq)]
pub enum Unkept {
    /// It takes so many bytes, and fewer are left. The log is as it was.
    Full { need: u32, left: u32 },
    /// A call of the disk failed. The log keeps nothing more.
    Disk,
}

/// Where changes are kept before they are made.
///
/// Contracts see five things of it. `left` is how many bytes are left for events, `None` where nothing is counted. `faults`
/// counts the calls of its disk that failed. `can_keep` holds while no call failed. `keeps` says of two moments of a log that
/// these events were kept from the one to the other, in this order, and then perhaps one more, in doubt since a call
/// failed: what a log promises of a crash is said there by each log itself, and `keeps_none` and `keeps_more` carry it over a
/// whole run.
pub trait Log {
    ghost left: { Self → Option ℕ };

    ghost faults: { Self → ℕ };

    ghost can_keep: { Self → Type 0 };

    ghost keeps: { Self → Self → List Told → Option Told → Type 0 };

    /// Keeps an event, whose fields are in range. It is full exactly where the event takes more bytes than are left.
    fn keep(&mut self, event: &Event) -> Result<(), Unkept>
        requires in_range { IsTrue (is_event (event_told event.now)) }
        requires open { can_keep self.old }
        ensures full { TellsRoom (left self.old) (room_for (event_told event.now)) result }
        ensures left { left self.new ≡ left_after (left self.old) (kept_by (event_told event.now) result) }
        ensures kept { keeps self.old self.new (option_to_list (kept_by (event_told event.now) result)) (doubt_by (event_told event.now) result) }
        ensures open { keep_failed result ≡ false → can_keep self.new }
        ensures counts { faults self.new ≡ counted_if (keep_failed result) (faults self.old) };

    /// At one moment nothing was kept.
    ghost keeps_none: { (log : Self) → keeps log log [] None };

    /// What was kept up to a moment and from it on was kept in all.
    ghost keeps_more: { (before here now : Self) (first more : List Told) (next : Option Told) → keeps before here first None → keeps here now more next → keeps before now (first ++ more) next };
}
