//! Writes and cuts that are on the disk when they are done.
ghost use Rattle.std.specs.Prelude.{◌≡◌, ◌+◌, ◌≤◌, ◌^◌, length, take, IfSome, OnOk, option_map};
ghost use Rattle.eon_model.specs.Disk.{put, LeavesOnly};
ghost use Rattle.eon_outside.specs.Faults.{Counts};
ghost use Rattle.plan_journal.specs.Moments.{IsTornFrom, IsCutFrom, IsDurable};

use eon_disk::{Disk, DiskFailed};

/// Writes a piece, and syncs it.
pub(crate) fn write_synced<D: Disk>(disk: &mut D, at: u64, piece: &[u8]) -> Result<(), DiskFailed>
    requires within { IfSome (D.now disk.old) (λ bytes. at ≤ length bytes) }
    requires fits { at + length piece.now ≤ 2 ^ 62 }
    ensures now { OnOk result (D.now disk.new ≡ option_map (put at piece.now) (D.now disk.old)) }
    ensures durable { OnOk result (IsDurable (D.now disk.new) (D.images disk.new)) }
    ensures moments { LeavesOnly D.clock D.images_since disk.old disk.new (IsTornFrom (D.images disk.old) at (length piece.now)) }
    ensures counts { Counts (D.faults disk.old) (D.faults disk.new) result }
    ensures asked { D.asked disk.new ≡ D.asked disk.old }
{
    match disk.write_at(at, piece) {
        Ok(()) => disk.sync(),
        Err(DiskFailed) => Err(DiskFailed),
    }
}

/// Cuts the bytes to a length, and syncs the cut.
pub(crate) fn cut_synced<D: Disk>(disk: &mut D, len: u64) -> Result<(), DiskFailed>
    requires { IfSome (D.now disk.old) (λ bytes. len ≤ length bytes) }
    ensures now { OnOk result (D.now disk.new ≡ option_map (take len) (D.now disk.old)) }
    ensures durable { OnOk result (IsDurable (D.now disk.new) (D.images disk.new)) }
    ensures moments { LeavesOnly D.clock D.images_since disk.old disk.new (IsCutFrom (D.images disk.old) len) }
    ensures counts { Counts (D.faults disk.old) (D.faults disk.new) result }
    ensures asked { D.asked disk.new ≡ D.asked disk.old }
{
    match disk.cut(len) {
        Ok(()) => disk.sync(),
        Err(DiskFailed) => Err(DiskFailed),
    }
}
