//! When replies are given, and how they are held back.
ghost use Rattle.std.specs.Prelude.{◌≡◌, [], IsTrue, OnOk, OnErr};
ghost use Rattle.std.specs.Io.KnownBytes.{Appends};
ghost use Rattle.eon_model.specs.Legal.{Legal};
ghost use Rattle.eon_model.specs.NetworkText.{is_setup};
ghost use Rattle.eon_model.specs.ReplyText.{reply_text};
ghost use Rattle.eon_outside.specs.Faults.{Stands};
ghost use Rattle.eon_outside.specs.Held.{given_since};
ghost use Rattle.eon_outside.specs.Writing.{AppendsPart};
ghost use Rattle.line_session.specs.Answering.{Took};
ghost use Rattle.reply_text.specs.Replied.{reply_told};
ghost use Rattle.reply_text.specs.Tellable.{can_tell};
ghost use Rattle.planner_lines.specs.Pacing.{gives_first};

use eon_outside::{Buffered, Failed, Sink, Start};
use line_session::give_held;
use plan_core::Core;
use reply_text::{Reply, write_reply};
use std::marker::Brand;

/// When the replies that are held back are given.
#[derive(Clone, Copy, Debug, PartialEq, Eq)]
pub enum Pace {
    /// Where there is no more room for them, and at the end of each piece of the stream. So it is where no change is kept.
    InLargePieces,
    /// Also before each change is kept, so that whoever reads the replies misses one change at most.
    BeforeChanges,
}

/// Gives what is held back before a change is kept, where it is to be given then.
pub(crate) fn give_first<K: Sink>(pace: Pace, out: &mut K, held: &mut Vec<u8>) -> Result<(), Failed>
    ensures same { Appends (given_since (K.given out.old) (K.given out.old) held.old.items) (given_since (K.given out.old) (K.given out.new) held.new.items) [] }
    ensures took { OnOk result (IsTrue (gives_first pace) → Took (given_since (K.given out.old) (K.given out.old) held.old.items) (K.given out.new)) }
    ensures stands { Stands (K.standing out.old) (K.standing out.new) result }
{
    match pace {
        Pace::InLargePieces => Ok(()),
        Pace::BeforeChanges => give_held(out, held),
    }
}

// Gives the reply to the sink, or holds it back behind what is held.
fn give_behind<K: Sink, S: Start>(
    reply: &Reply,
    core: &Core,
    out: &mut K,
    held: &mut Vec<u8>,
) -> Result<(), Failed>
    requires there { IsTrue (can_tell core.now.setup core.now.state (reply_told reply.now)) }
    ensures bytes { OnOk result (Appends (given_since S.bytes (K.given out.old) held.old.items) (given_since S.bytes (K.given out.new) held.new.items) (reply_text core.now.setup core.now.state (reply_told reply.now))) }
    ensures part { OnErr result (AppendsPart (given_since S.bytes (K.given out.old) held.old.items) (given_since S.bytes (K.given out.new) held.new.items) (reply_text core.now.setup core.now.state (reply_told reply.now))) }
    ensures stands { Stands (K.standing out.old) (K.standing out.new) result }
    ensures in_range { IsTrue (is_setup core.now.setup) }
    ensures legal { Legal core.now.setup core.now.state }
{
    let mut replies: Buffered<'_, K, S> = Buffered::new(out, held);
    write_reply(reply, core.setup(), core.services(), &mut replies)
}

/// Gives the reply as it reads in the machine's state, or holds it back behind what is held. After a failure a part of it was
/// given or held back, and not all. No memory is taken.
pub(crate) fn give_reply<K: Sink>(
    reply: &Reply,
    core: &Core,
    out: &mut K,
    held: &mut Vec<u8>,
) -> Result<(), Failed>
    requires there { IsTrue (can_tell core.now.setup core.now.state (reply_told reply.now)) }
    ensures bytes { OnOk result (Appends (given_since (K.given out.old) (K.given out.old) held.old.items) (given_since (K.given out.old) (K.given out.new) held.new.items) (reply_text core.now.setup core.now.state (reply_told reply.now))) }
    ensures part { OnErr result (AppendsPart (given_since (K.given out.old) (K.given out.old) held.old.items) (given_since (K.given out.old) (K.given out.new) held.new.items) (reply_text core.now.setup core.now.state (reply_told reply.now))) }
    ensures stands { Stands (K.standing out.old) (K.standing out.new) result }
    ensures in_range { IsTrue (is_setup core.now.setup) }
    ensures legal { Legal core.now.setup core.now.state }
{
    give_behind::<K, Brand>(reply, core, out, held)
}
