//! A fresh journal.
ghost use Rattle.std.specs.Prelude.{◌≡◌, [], length, IfSome};
ghost use Rattle.eon_model.specs.Disk.{LeavesOnly};
ghost use Rattle.eon_model.specs.Journal.{journal_of};
ghost use Rattle.plan_journal.specs.Faults.{counted_if, init_failed};
ghost use Rattle.plan_journal.specs.Moments.{IsTornFrom};
ghost use Rattle.plan_journal.specs.Made.{IsMade, OnNotEmpty};

use crate::durable::write_synced;
use crate::fault::InitFault;
use crate::head::{DIGEST_BYTES, HEAD_BYTES, MARK};
use eon_disk::{Disk, DiskFailed};

/// The bytes of a fresh journal.
const FRESH_BYTES: usize = 41;

// The bytes of a journal without events, for the network of this digest.
fn fresh_journal(own: &[u8; DIGEST_BYTES]) -> [u8; FRESH_BYTES]
    ensures { result ≡ journal_of own.now [] }
{
    let mut bytes = [0; FRESH_BYTES];
    bytes[..8].copy_from_slice(MARK);
    bytes[8..HEAD_BYTES].copy_from_slice(own);
    bytes
}

/// Makes a journal without events for the network whose text has this digest, on a disk without bytes. A disk that has
/// some is left as it is. One write and a sync make the journal, so that a crash leaves 41 bytes at most.
pub fn init<D: Disk>(disk: &mut D, own: &[u8; DIGEST_BYTES]) -> Result<(), InitFault>
    ensures made { IfSome (D.now disk.old) (λ bytes. IsMade own.now bytes (D.now disk.new) (D.images disk.new) result) }
    ensures moments { LeavesOnly D.clock D.images_since disk.old disk.new (IsTornFrom (D.images disk.old) 0 41) }
    ensures untouched { OnNotEmpty result (LeavesOnly D.clock D.images_since disk.old disk.new (D.images disk.old)) }
    ensures counts { D.faults disk.new ≡ counted_if (init_failed result) (D.faults disk.old) }
    ensures asked { D.asked disk.new ≡ D.asked disk.old }
{
    match disk.len() {
        Ok(0) => {}
        Ok(len) => return Err(InitFault::NotEmpty { len }),
        Err(DiskFailed) => return Err(InitFault::Disk),
    }
    match write_synced(disk, 0, &fresh_journal(own)) {
        Ok(()) => Ok(()),
        Err(DiskFailed) => Err(InitFault::Disk),
    }
}
