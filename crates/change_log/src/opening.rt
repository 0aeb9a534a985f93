//! The journal of a disk is opened for changes.
ghost use Rattle.std.specs.Prelude.{◌≡◌, ◌≤◌, [], false, ℕ, List, Some, IfSome, IfOk, OnErr};
ghost use Rattle.eon_model.specs.Disk.{LeavesOnly};
ghost use Rattle.eon_model.specs.JournalFault.{IsKept};
ghost use Rattle.journal_replay.specs.Replayed.{replay_failed, replay_fault};
ghost use Rattle.plan_journal.specs.Faults.{counted_if};
ghost use Rattle.plan_journal.specs.Moments.{IsDurable, IsReady};
ghost use Rattle.change_log.specs.Crash.{IsLeftByOpening};
ghost use Rattle.change_log.specs.Opening.{IsOpened};

use eon_disk::{Deck, Disk, DiskFailed};
use journal_replay::{JournalWhy, ReplayFault, follow_all};
use plan_core::Core;
use plan_journal::{OpenFault, Opening, Place, examine};

// Why a journal is not opened whose head was examined.
fn fault_of(fault: OpenFault) -> ReplayFault
    ensures { result ≡ replay_fault fault }
{
    match fault {
        OpenFault::BadHead { at } => ReplayFault::Refused {
            at,
            why: JournalWhy::Head,
        },
        OpenFault::Other { kept, own } => ReplayFault::Other { kept, own },
        OpenFault::Disk => ReplayFault::Disk,
    }
}

// The most bytes that the journal may have.
fn limit_of(core: &Core) -> u32
    ensures is { result ≡ core.now.setup.journal }
    ensures least { 4096 ≤ result }
{
    core.setup().journal
}

// Follows the events of a journal whose head was examined, and closes the gate behind them.
fn follow_and_close<D: Disk>(
    opening: &mut Opening<'_, D>,
    core: &mut Core,
) -> Result<Place, ReplayFault>
    requires limit { opening.old.place.limit ≡ core.old.setup.journal }
    requires at { opening.old.place.at ≡ 40 }
    requires number { opening.old.place.number ≡ 1 }
    requires no_service { core.old.state ≡ [] }
    requires durable { IsDurable (D.now opening.old.disk.now) (D.images opening.old.disk.now) }
    ensures same_reference { opening.new.disk.ghost_name ≡ opening.old.disk.ghost_name }
    ensures setup { core.new.setup ≡ core.old.setup }
    ensures told { IfSome (D.now opening.old.disk.now) (λ bytes. (own : List ℕ) → IsKept bytes core.old.setup.journal own → IsOpened core.old.setup bytes own core.new.state (D.now opening.new.disk.now) (D.images opening.new.disk.now) result) }
    ensures limit { IfOk result (λ place. place.limit ≡ core.old.setup.journal) }
    ensures ready { IfOk result (λ place. IsReady (D.now opening.new.disk.now) (D.images opening.new.disk.now) place.at) }
    ensures moments { IfSome (D.now opening.old.disk.now) (λ bytes. (own : List ℕ) → IsKept bytes core.old.setup.journal own → LeavesOnly D.clock D.images_since opening.old.disk.now opening.new.disk.now (IsLeftByOpening core.old.setup (D.now opening.old.disk.now) own (D.images opening.old.disk.now))) }
    ensures stays { replay_failed result ≡ false → OnErr result (D.now opening.new.disk.now ≡ D.now opening.old.disk.now) }
    ensures counts { D.faults opening.new.disk.now ≡ counted_if (replay_failed result) (D.faults opening.old.disk.now) }
    ensures asked { D.asked opening.new.disk.now ≡ D.asked opening.old.disk.now }
{
    match follow_all(opening, core) {
        Ok(_) => {}
        Err(fault) => return Err(fault),
    }
    match opening.prepare() {
        Ok(()) => Ok(opening.place),
        Err(DiskFailed) => Err(ReplayFault::Disk),
    }
}

// Opens the journal of a file that was attached.
fn open_attached<D: Disk>(
    core: &mut Core,
    disk: &mut D,
    own: &[u8; 32],
) -> Result<Place, ReplayFault>
    requires no_service { core.old.state ≡ [] }
    ensures setup { core.new.setup ≡ core.old.setup }
    ensures told { IfSome (D.now disk.old) (λ bytes. IsOpened core.old.setup bytes own.now core.new.state (D.now disk.new) (D.images disk.new) result) }
    ensures limit { IfOk result (λ place. place.limit ≡ core.old.setup.journal) }
    ensures ready { IfOk result (λ place. IsReady (D.now disk.new) (D.images disk.new) place.at) }
    ensures moments { IfSome (D.now disk.old) (λ _. LeavesOnly D.clock D.images_since disk.old disk.new (IsLeftByOpening core.old.setup (D.now disk.old) own.now (D.images disk.old))) }
    ensures stays { replay_failed result ≡ false → OnErr result (D.now disk.new ≡ D.now disk.old) }
    ensures counts { D.faults disk.new ≡ counted_if (replay_failed result) (D.faults disk.old) }
    ensures asked { D.asked disk.new ≡ D.asked disk.old }
{
    let head = match examine(disk, limit_of(core), own) {
        Ok(head) => head,
        Err(fault) => return Err(fault_of(fault)),
    };
    let mut opening = Opening::over(disk, head);
    follow_and_close(&mut opening, core)
}

/// Opens the journal of this name for changes, over a machine without a service: the file is attached, and not made where it
/// is not there; each event that stands in it is followed; and the gate behind them is closed. `own` is the digest of the
/// network's text. `journal_at` then keeps events from this place on. After a failure the machine has followed some of the
/// events, and only where the disk failed the journal may be read otherwise than before.
pub fn open_log<D: Deck>(
    core: &mut Core,
    disk: &mut D,
    journal: &str,
    own: &[u8; 32],
) -> Result<Place, ReplayFault>
    requires no_service { core.old.state ≡ [] }
    ensures setup { core.new.setup ≡ core.old.setup }
    ensures told { IfSome (D.now disk.old) (λ bytes. IsOpened core.old.setup bytes own.now core.new.state (D.now disk.new) (D.images disk.new) result) }
    ensures limit { IfOk result (λ place. place.limit ≡ core.old.setup.journal) }
    ensures ready { IfOk result (λ place. IsReady (D.now disk.new) (D.images disk.new) place.at) }
    ensures moments { IfSome (D.now disk.old) (λ _. LeavesOnly D.clock D.images_since disk.old disk.new (IsLeftByOpening core.old.setup (D.now disk.old) own.now (D.images disk.old))) }
    ensures stays { replay_failed result ≡ false → OnErr result (D.now disk.new ≡ D.now disk.old) }
    ensures counts { D.faults disk.new ≡ counted_if (replay_failed result) (D.faults disk.old) }
    ensures asked { D.asked disk.new ≡ Some (record { name = journal.now; create = false }) }
{
    match disk.attach(journal, false) {
        Ok(()) => open_attached(core, disk, own),
        Err(DiskFailed) => Err(ReplayFault::Disk),
    }
}
