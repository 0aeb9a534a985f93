//! A reply that is given to a sink.
ghost use Rattle.std.specs.Prelude.{◌≡◌, false, OnOk, OnErr};
ghost use Rattle.std.specs.Io.KnownBytes.{Appends};
ghost use Rattle.eon_model.specs.Legal.{Setup};
ghost use Rattle.eon_model.specs.RoomReplies.{room_reply_text};
ghost use Rattle.eon_model.specs.Services.{State};
ghost use Rattle.eon_outside.specs.Faults.{Stands};
ghost use Rattle.eon_outside.specs.Writing.{AppendsPart};
ghost use Rattle.room_lines.specs.Replied.{reply_told, text_of};

use crate::printing::put_reply;
use crate::reply::RoomReply;
use eon_outside::{Failed, Sink};
use line_writer::SinkText;

// Gives the whole reply, where nothing is given of the text yet.
fn give_reply<K: Sink>(r: &RoomReply, text: &mut SinkText<K>) -> Result<(), Failed>
    requires going { text.old.stopped ≡ false }
    ensures place { text.new.out.ghost_name ≡ text.old.out.ghost_name }
    ensures bytes { OnOk result (Appends (K.given text.old.out.now) (K.given text.new.out.now) (text_of r.now)) }
    ensures part { OnErr result (AppendsPart (K.given text.old.out.now) (K.given text.new.out.now) (text_of r.now)) }
    ensures stands { Stands (K.standing text.old.out.now) (K.standing text.new.out.now) result }
{
    put_reply(r, text);
    text.finish()
}

// Gives the reply, as it reads whatever the services are.
fn write_text<K: Sink>(r: &RoomReply, out: &mut K) -> Result<(), Failed>
    ensures bytes { OnOk result (Appends (K.given out.old) (K.given out.new) (text_of r.now)) }
    ensures part { OnErr result (AppendsPart (K.given out.old) (K.given out.new) (text_of r.now)) }
    ensures stands { Stands (K.standing out.old) (K.standing out.new) result }
{
    give_reply(r, &mut SinkText::new(out))
}

/// Gives the reply to the sink, word by word. It reads the same whatever the services are. Takes no memory. Where the sink fails, a
/// proper front of it was given, and nothing more is tried.
pub fn write_room<K: Sink>(r: &RoomReply, out: &mut K) -> Result<(), Failed>
    ensures bytes { (setup : Setup) (state : State) → OnOk result (Appends (K.given out.old) (K.given out.new) (room_reply_text setup state (reply_told r.now))) }
    ensures part { (setup : Setup) (state : State) → OnErr result (AppendsPart (K.given out.old) (K.given out.new) (room_reply_text setup state (reply_told r.now))) }
    ensures stands { Stands (K.standing out.old) (K.standing out.new) result }
{
    write_text(r, out)
}
