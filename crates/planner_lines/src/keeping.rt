//! A change is kept, and then made.
ghost use Rattle.std.specs.Prelude.{◌≡◌, Some, IsTrue, OnOk};
ghost use Rattle.eon_model.specs.EventText.{is_event};
ghost use Rattle.eon_model.specs.Run.{situation};
ghost use Rattle.journal_record.specs.Told.{event_told};
ghost use Rattle.reply_text.specs.Replied.{reply_told};
ghost use Rattle.planner_lines.specs.Making.{MakesBy};

use change_log::{Event, Log, Unkept};
use line_session::Stopped;
use plan_core::Core;
use reply_text::Reply;

/// Keeps the change that waits, and then makes it: the reply is that of the change. Where the log has too few bytes left for it,
/// nothing changes, and the reply says so. Where the log's disk fails the change is not made, though it may be kept or not.
pub(crate) fn make<L: Log>(
    core: &mut Core,
    log: &mut L,
    event: Event,
    reply: Reply,
) -> Result<Reply, Stopped>
    requires waits { core.old.waiting ≡ Some event }
    requires event { IsTrue (is_event (event_told event)) }
    requires open { L.can_keep log.old }
    ensures setup { core.new.setup ≡ core.old.setup }
    ensures made { MakesBy core.old.setup (L.keeps log.old log.new) (situation core.old.state (L.left log.old)) (situation core.new.state (L.left log.new)) (event_told event) (reply_told reply) result }
    ensures open { OnOk result (L.can_keep log.new) }
{
    match log.keep(&event) {
        Ok(()) => {
            core.apply(event);
            Ok(reply)
        }
        Err(Unkept::Full { need, left }) => Ok(Reply::FullJournal { need, left }),
        Err(Unkept::Disk) => Err(Stopped::Disk),
    }
}
