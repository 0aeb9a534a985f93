//! Disks, and what a crash may leave of one.
ghost use Rattle.std.specs.Prelude.{◌≡◌, ◌+◌, ◌≤◌, ◌^◌, ℕ, Bool, List, length, take, Option, Some, IfSome, IfOk, OnOk, OnErr, is_some, option_map};
ghost use Rattle.eon_model.specs.Disk.{put, Reads, Torn, Cut, Follows, Unchanged, Only, Elapses};
ghost use Rattle.eon_outside.specs.Faults.{Counts};
ghost use Rattle.eon_disk.specs.Asked.{Asked};

/// A call of a disk failed. The disk's count of faults tells so.
#[derive(Clone, Copy, Debug, PartialEq, Eq)]
pub struct DiskFailed;

/// One file of a disk, whose bytes may be lost in part where the machine stops before they are synced.
///
/// Contracts see six things of it. `now` are the bytes that a read gives, `None` where the disk does not tell.
/// `images` are all bytes that a crash at this moment may leave. `clock` is the moment, a number that does not fall, and
/// `images_since` is all that a crash at some moment since that one might have left. `faults` counts the calls that
/// failed: each raises it by one, up to 2^64 - 1. `asked` is what a deck was asked to attach last.
///
/// Where a disk tells its bytes, they are one of the images.
pub trait Disk {
    ghost now: { Self → Option (List ℕ) };

    ghost images: { Self → List ℕ → Type 0 };

    ghost clock: { Self → ℕ };

    ghost images_since: { Self → ℕ → List ℕ → Type 0 };

    ghost faults: { Self → ℕ };

    ghost asked: { Self → Option Asked };

    /// How many bytes there are.
    fn len(&mut self) -> Result<u64, DiskFailed>
        ensures bytes { IfSome (now self.old) (λ bytes. IfOk result (λ n. n ≡ length bytes)) }
        ensures now { now self.new ≡ now self.old }
        ensures crash { Unchanged (images self.old) (images self.new) }
        ensures time { Elapses (clock self.old) (clock self.new) (images_since self.old) (images_since self.new) (images self.new) }
        ensures counts { Counts (faults self.old) (faults self.new) result }
        ensures asked { asked self.new ≡ asked self.old };

    /// Moves the bytes from `at` on to the front of `buf`, as far as there are some and there is room, and says how
    /// many.
    fn read_at(&mut self, at: u64, buf: &mut [u8]) -> Result<usize, DiskFailed>
        ensures bytes { Reads (now self.old) at (length buf.old) buf.new result }
        ensures now { now self.new ≡ now self.old }
        ensures crash { Unchanged (images self.old) (images self.new) }
        ensures time { Elapses (clock self.old) (clock self.new) (images_since self.old) (images_since self.new) (images self.new) }
        ensures counts { Counts (faults self.old) (faults self.new) result }
        ensures asked { asked self.new ≡ asked self.old };

    /// Writes a piece over what is there, and past the end. Until the next sync a crash may leave any bytes in its
    /// place. After a failure it may have been written, in part or not at all.
    fn write_at(&mut self, at: u64, piece: &[u8]) -> Result<(), DiskFailed>
        requires within { IfSome (now self.old) (λ bytes. at ≤ length bytes) }
        requires fits { at + length piece.now ≤ 2 ^ 62 }
        ensures now { OnOk result (now self.new ≡ option_map (put at piece.now) (now self.old)) }
        ensures told { is_some (now self.new) ≡ is_some (now self.old) }
        ensures crash { Follows (Torn at (length piece.now)) (images self.old) (images self.new) }
        ensures none_lost { (c : List ℕ) → images self.old c → images self.new c }
        ensures time { Elapses (clock self.old) (clock self.new) (images_since self.old) (images_since self.new) (images self.new) }
        ensures counts { Counts (faults self.old) (faults self.new) result }
        ensures asked { asked self.new ≡ asked self.old };

    /// Cuts the bytes to a length. Until the next sync a crash may leave a longer front of what was there. After a
    /// failure they may have been cut or not.
    fn cut(&mut self, len: u64) -> Result<(), DiskFailed>
        requires within { IfSome (now self.old) (λ bytes. len ≤ length bytes) }
        ensures now { OnOk result (now self.new ≡ option_map (take len) (now self.old)) }
        ensures told { is_some (now self.new) ≡ is_some (now self.old) }
        ensures crash { Follows (Cut len) (images self.old) (images self.new) }
        ensures none_lost { (c : List ℕ) → images self.old c → images self.new c }
        ensures time { Elapses (clock self.old) (clock self.new) (images_since self.old) (images_since self.new) (images self.new) }
        ensures counts { Counts (faults self.old) (faults self.new) result }
        ensures asked { asked self.new ≡ asked self.old };

    /// After it a crash leaves what a read gives. After a failure a crash may leave what it might have left before.
    fn sync(&mut self) -> Result<(), DiskFailed>
        ensures durable { OnOk result (IfSome (now self.old) (λ bytes. Only bytes (images self.new))) }
        ensures now { now self.new ≡ now self.old }
        ensures none_new { (c : List ℕ) → images self.new c → images self.old c }
        ensures failed { OnErr result (Unchanged (images self.old) (images self.new)) }
        ensures time { Elapses (clock self.old) (clock self.new) (images_since self.old) (images_since self.new) (images self.new) }
        ensures counts { Counts (faults self.old) (faults self.new) result }
        ensures asked { asked self.new ≡ asked self.old };

    /// What a read gives is an image.
    ghost reads: { (disk : Self) → IfSome (now disk) (images disk) };

    /// This moment is one of those since an earlier one.
    ghost counts_now: { (disk : Self) (t : ℕ) (c : List ℕ) → t ≤ clock disk → images disk c → images_since disk t c };

    /// Since this moment there is no other.
    ghost only_now: { (disk : Self) (c : List ℕ) → images_since disk (clock disk) c → images disk c };
}

/// A disk whose file is named once, before any other call.
pub trait Deck: Disk {
    /// Takes the file of this name. Where it is not there, it is made if `create` says so, and else the call fails.
    fn attach(&mut self, name: &str, create: bool) -> Result<(), DiskFailed>
        ensures now { Self.now self.new ≡ Self.now self.old }
        ensures crash { Unchanged (Self.images self.old) (Self.images self.new) }
        ensures time { Elapses (Self.clock self.old) (Self.clock self.new) (Self.images_since self.old) (Self.images_since self.new) (Self.images self.new) }
        ensures counts { Counts (Self.faults self.old) (Self.faults self.new) result }
        ensures asked { Self.asked self.new ≡ Some (record { name = name.now; create = create }) };
}
