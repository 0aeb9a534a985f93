//! What a crash may leave of a journal that is opened, and to which a run's changes are kept.
ghost use Rattle.change_log.specs.Crash.{OpeningIsSafe, OpeningIsSafeNow, KeptIsSafeNow, KeptIsSafeSince, HeldIsRead};
ghost use Rattle.change_log.specs.Opening.{CallsAreSafe};

use eon_disk::Disk;

/// What is left while a sound journal is opened is sound, and is read as one of the images before.
pub fn opening_is_safe<D: Disk>()
    ensures { OpeningIsSafe D.now D.images D.clock D.images_since }
{}

/// So is what a crash leaves when the opening ends, also where it fails.
pub fn opening_is_safe_now<D: Disk>()
    ensures { OpeningIsSafeNow D.now D.images D.clock D.images_since }
{}

/// What is left behind kept changes holds every acknowledged change, and at most one other.
pub fn kept_is_safe_now<D: Disk>()
    ensures { KeptIsSafeNow D.now D.images D.clock D.images_since }
{}

/// What was left at any moment is sound, and read as an image of the start, or as the events of the start and first changes.
pub fn kept_is_safe_since<D: Disk>()
    ensures { KeptIsSafeSince D.now D.images D.clock D.images_since }
{}

/// A journal that holds events is read as them alone.
pub fn held_is_read<D: Disk>()
    ensures { HeldIsRead D.now D.images D.clock D.images_since }
{}

/// A call that opens a sound journal and keeps a run's changes leaves no more than the run, with every acknowledged change.
pub fn calls_are_safe<D: Disk>()
    ensures { CallsAreSafe D.now D.images D.clock D.images_since D.faults D.asked }
{}
