//! Events are kept in the journal of a disk.
ghost use Rattle.std.specs.Prelude.{◌≡◌, Some, false};
ghost use Rattle.eon_model.specs.Journal.{left_at};
ghost use Rattle.plan_journal.specs.Moments.{IsReady};
ghost use Rattle.change_log.specs.Holding.{KeepsOn};
ghost use Rattle.change_log.specs.HoldingLaws.{keeps_none, keeps_more};

use crate::log::{Log, Unkept};
use eon_disk::Disk;
use journal_record::Event;
use plan_journal::{AppendFault, Journal, Place};

/// The journal of this disk, which was made ready and goes on at this place.
pub fn journal_at<D: Disk>(disk: &mut D, place: Place) -> Journal<'_, D>
    ensures same_reference { result.disk.ghost_name ≡ disk.entry.ghost_name }
    ensures same { result.disk.now ≡ disk.old }
    ensures place { result.place ≡ place }
    ensures spent { result.spent ≡ false }
{
    Journal {
        disk,
        place,
        spent: false,
    }
}

/// A journal that was made ready is a log. When an event is kept it is on the disk.
impl<'d, D: Disk> Log for Journal<'d, D> {
    ghost left = { λ log. Some (left_at log.place.limit log.place.at) };

    ghost faults = { λ log. D.faults log.disk.now };

    ghost can_keep = { λ log. (log.spent ≡ false) × IsReady (D.now log.disk.now) (D.images log.disk.now) log.place.at };

    ghost keeps = { λ old new events doubt. KeepsOn D.now D.images D.clock D.images_since D.faults D.asked old.disk.ghost_name new.disk.ghost_name old.disk.now new.disk.now old.place new.place events doubt };

    fn keep(&mut self, event: &Event) -> Result<(), Unkept> {
        match self.append(event) {
            Ok(()) => Ok(()),
            Err(AppendFault::Full { need, left }) => Err(Unkept::Full { need, left }),
            Err(AppendFault::Disk) => Err(Unkept::Disk),
        }
    }

    ghost keeps_none = { λ log. keeps_none D.now D.images D.clock D.images_since D.faults D.asked D.only_now log.disk.ghost_name log.disk.now log.place };

    ghost keeps_more = { λ before here now first more next one two. keeps_more D.now D.images D.clock D.images_since D.faults D.asked before.disk.ghost_name here.disk.ghost_name now.disk.ghost_name before.disk.now here.disk.now now.disk.now before.place here.place now.place first more next one two };
}
