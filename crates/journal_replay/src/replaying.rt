//! The journal of a disk is replayed.
ghost use Rattle.std.specs.Prelude.{◌≡◌, ◌≤◌, [], IfSome, OnOk, ℕ};
ghost use Rattle.journal_replay.specs.Replayed.{IsReplayed, replay_failed, replay_fault};
ghost use Rattle.plan_journal.specs.Faults.{counted_if};
ghost use Rattle.plan_journal.specs.Moments.{IsDurable, OnlyReads};

use crate::fault::{JournalWhy, ReplayFault};
use crate::following::follow_all;
use eon_disk::Disk;
use plan_core::Core;
use plan_journal::{OpenFault, Opening, examine};

// Why a journal does not replay whose head was examined.
fn fault_of(fault: OpenFault) -> ReplayFault
    ensures { result ≡ replay_fault fault }
{
    match fault {
        OpenFault::BadHead { at } => ReplayFault::Refused {
            at,
            why: JournalWhy::Head,
        },
        OpenFault::Other { kept, own } => ReplayFault::Other { kept, own },
        OpenFault::Disk => ReplayFault::Disk,
    }
}

// The most bytes that the journal may have.
fn limit_of(core: &Core) -> u32
    ensures is { result ≡ core.now.setup.journal }
    ensures least { 4096 ≤ result }
{
    core.setup().journal
}

/// Replays the journal that a disk has, over a machine without a service, and says how many events there are. `own` is the
/// digest of the network's text. The disk is only read. After a failure the machine has followed some of the events.
pub fn replay<D: Disk>(core: &mut Core, disk: &mut D, own: &[u8; 32]) -> Result<u64, ReplayFault>
    requires no_service { core.old.state ≡ [] }
    ensures setup { core.new.setup ≡ core.old.setup }
    ensures told { IfSome (D.now disk.old) (λ bytes. (place : ℕ) × IsReplayed core.old.setup bytes own.now core.new.state place result) }
    ensures reads { OnlyReads D.now D.images D.clock D.images_since disk.old disk.new }
    ensures durable { OnOk result (IsDurable (D.now disk.new) (D.images disk.new)) }
    ensures counts { D.faults disk.new ≡ counted_if (replay_failed result) (D.faults disk.old) }
    ensures asked { D.asked disk.new ≡ D.asked disk.old }
{
    let head = match examine(disk, limit_of(core), own) {
        Ok(head) => head,
        Err(fault) => return Err(fault_of(fault)),
    };
    let mut opening = Opening::over(disk, head);
    follow_all(&mut opening, core)
}
