//! A reply that is given to a sink.
ghost use Rattle.std.specs.Prelude.{◌≡◌, false, IsTrue, OnOk, OnErr};
ghost use Rattle.std.specs.Io.KnownBytes.{Appends};
ghost use Rattle.eon_model.specs.Legal.{Legal};
ghost use Rattle.eon_model.specs.NetworkText.{is_setup};
ghost use Rattle.eon_model.specs.ReplyText.{reply_text};
ghost use Rattle.eon_outside.specs.Faults.{Stands};
ghost use Rattle.eon_outside.specs.Writing.{AppendsPart};
ghost use Rattle.reply_text.specs.Replied.{reply_told};
ghost use Rattle.reply_text.specs.Tellable.{can_tell};

use crate::printing::put_reply;
use crate::reply::Reply;
use eon_outside::{Failed, Sink};
use leg_state::Services;
use line_writer::SinkText;
use net_setup::NetSetup;

// Gives the whole reply, where nothing is given of the text yet.
fn give_reply<K: Sink>(
    r: &Reply,
    setup: &NetSetup,
    services: &Services,
    text: &mut SinkText<K>,
) -> Result<(), Failed>
    requires setup { IsTrue (is_setup setup.now) }
    requires legal { Legal setup.now services.now.list }
    requires there { IsTrue (can_tell setup.now services.now.list (reply_told r.now)) }
    requires going { text.old.stopped ≡ false }
    ensures place { text.new.out.ghost_name ≡ text.old.out.ghost_name }
    ensures bytes { OnOk result (Appends (K.given text.old.out.now) (K.given text.new.out.now) (reply_text setup.now services.now.list (reply_told r.now))) }
    ensures part { OnErr result (AppendsPart (K.given text.old.out.now) (K.given text.new.out.now) (reply_text setup.now services.now.list (reply_told r.now))) }
    ensures stands { Stands (K.standing text.old.out.now) (K.standing text.new.out.now) result }
{
    put_reply(r, setup, services, text);
    text.finish()
}

/// Gives the reply to the sink, word by word, as it reads in this state, the one after the change. Takes no
/// memory. Where the sink fails, a proper front of it was given, and nothing more is tried.
pub fn write_reply<K: Sink>(
    r: &Reply,
    setup: &NetSetup,
    services: &Services,
    out: &mut K,
) -> Result<(), Failed>
    requires setup { IsTrue (is_setup setup.now) }
    requires legal { Legal setup.now services.now.list }
    requires there { IsTrue (can_tell setup.now services.now.list (reply_told r.now)) }
    ensures bytes { OnOk result (Appends (K.given out.old) (K.given out.new) (reply_text setup.now services.now.list (reply_told r.now))) }
    ensures part { OnErr result (AppendsPart (K.given out.old) (K.given out.new) (reply_text setup.now services.now.list (reply_told r.now))) }
    ensures stands { Stands (K.standing out.old) (K.standing out.new) result }
{
    give_reply(r, setup, services, &mut SinkText::new(out))
}
