//! Each event of a journal is followed, up to the last gate.
ghost use Rattle.std.specs.Prelude.{◌≡◌, ◌+◌, ◌<◌, ◌≤◌, [], is_some, true, IsTrue, IfSome, IfOk, OnOk, List, ℕ};
ghost use Rattle.eon_model.specs.EventText.{is_event};
ghost use Rattle.eon_model.specs.JournalFault.{IsKept};
ghost use Rattle.journal_record.specs.Told.{event_told};
ghost use Rattle.journal_replay.specs.Followed.{LeadTo, IsFollowed, IsTaken, has_ended, has_more};
ghost use Rattle.journal_replay.specs.Replayed.{IsReplayed, replay_failed};
ghost use Rattle.plan_journal.specs.Faults.{counted_if};
ghost use Rattle.plan_journal.specs.Moments.{IsDurable, OnlyReads};
ghost use Rattle.plan_journal.specs.Prepared.{WasRead};

use crate::fault::{JournalWhy, ReplayFault};
use eon_disk::Disk;
use plan_core::{CannotFollow, Core};
use plan_journal::{Kept, NextFault, Opening};

// Follows this event of the journal.
fn follow_kept(core: &mut Core, kept: &Kept) -> Result<bool, ReplayFault>
    requires { IsTrue (is_event (event_told kept.now.event)) }
    ensures setup { core.new.setup ≡ core.old.setup }
    ensures taken { IsTaken core.old.setup core.old.state core.new.state kept.now result }
{
    match core.follow(&kept.event) {
        Ok(()) => Ok(true),
        Err(CannotFollow::NotNow) => Err(ReplayFault::Refused {
            at: kept.at,
            why: JournalWhy::Event,
        }),
        Err(CannotFollow::Memory) => Err(ReplayFault::Memory),
    }
}

// Follows the next event, and says whether there was one.
fn follow_next<D: Disk>(opening: &mut Opening<'_, D>, core: &mut Core) -> Result<bool, ReplayFault>
    requires limit { opening.old.place.limit ≡ core.old.setup.journal }
    ensures same_reference { opening.new.disk.ghost_name ≡ opening.old.disk.ghost_name }
    ensures setup { core.new.setup ≡ core.old.setup }
    ensures told { IfSome (D.now opening.old.disk.now) (λ bytes. (own : List ℕ) → IsKept bytes core.old.setup.journal own → LeadTo core.old.setup bytes core.old.state opening.old.place.at opening.old.place.number → IsFollowed core.old.setup bytes own core.new.state opening.new.place.at opening.new.place.number result) }
    ensures limit { opening.new.place.limit ≡ opening.old.place.limit }
    ensures further { has_more result ≡ true → opening.old.place.at < opening.new.place.at }
    ensures numbered { opening.old.place.number ≤ opening.new.place.number }
    ensures gate { has_ended result ≡ true → is_some opening.new.gate ≡ true }
    ensures ended { has_ended result ≡ true → IsDurable (D.now opening.old.disk.now) (D.images opening.old.disk.now) → IfSome opening.new.gate (WasRead (D.now opening.new.disk.now) (D.images opening.new.disk.now) opening.new.place.at) }
    ensures durable { IsDurable (D.now opening.old.disk.now) (D.images opening.old.disk.now) → IsDurable (D.now opening.new.disk.now) (D.images opening.new.disk.now) }
    ensures reads { OnlyReads D.now D.images D.clock D.images_since opening.old.disk.now opening.new.disk.now }
    ensures counts { D.faults opening.new.disk.now ≡ counted_if (replay_failed result) (D.faults opening.old.disk.now) }
    ensures asked { D.asked opening.new.disk.now ≡ D.asked opening.old.disk.now }
{
    match opening.next() {
        Ok(Some(kept)) => follow_kept(core, &kept),
        Ok(None) => Ok(false),
        Err(NextFault::BadRecord { at }) => Err(ReplayFault::Refused {
            at,
            why: JournalWhy::Record,
        }),
        Err(NextFault::Disk) => Err(ReplayFault::Disk),
    }
}

/// Follows every event of a journal whose head was examined, from its first record on, and says how many there are. When
/// it is done the journal is at its last gate, and may be made ready. After a failure the machine has followed some of them.
pub fn follow_all<D: Disk>(
    opening: &mut Opening<'_, D>,
    core: &mut Core,
) -> Result<u64, ReplayFault>
    requires limit { opening.old.place.limit ≡ core.old.setup.journal }
    requires at { opening.old.place.at ≡ 40 }
    requires number { opening.old.place.number ≡ 1 }
    requires no_service { core.old.state ≡ [] }
    ensures same_reference { opening.new.disk.ghost_name ≡ opening.old.disk.ghost_name }
    ensures setup { core.new.setup ≡ core.old.setup }
    ensures told { IfSome (D.now opening.old.disk.now) (λ bytes. (own : List ℕ) → IsKept bytes core.old.setup.journal own → IsReplayed core.old.setup bytes own core.new.state opening.new.place.at result) }
    ensures limit { opening.new.place.limit ≡ opening.old.place.limit }
    ensures number { IfOk result (λ count. opening.new.place.number ≡ count + 1) }
    ensures gate { OnOk result (is_some opening.new.gate ≡ true) }
    ensures ended { IsDurable (D.now opening.old.disk.now) (D.images opening.old.disk.now) → OnOk result (IfSome opening.new.gate (WasRead (D.now opening.new.disk.now) (D.images opening.new.disk.now) opening.new.place.at)) }
    ensures durable { IsDurable (D.now opening.old.disk.now) (D.images opening.old.disk.now) → IsDurable (D.now opening.new.disk.now) (D.images opening.new.disk.now) }
    ensures reads { OnlyReads D.now D.images D.clock D.images_since opening.old.disk.now opening.new.disk.now }
    ensures counts { D.faults opening.new.disk.now ≡ counted_if (replay_failed result) (D.faults opening.old.disk.now) }
    ensures asked { D.asked opening.new.disk.now ≡ D.asked opening.old.disk.now }
{
    loop {
        let more = match follow_next(opening, core) {
            Ok(more) => more,
            Err(fault) => return Err(fault),
        };
        if !more {
            return Ok(opening.place.number as u64 - 1);
        }
    }
}
