//! A reply that is given to a sink.
ghost use Rattle.std.specs.Prelude.{◌≡◌, false, IsTrue, OnOk, OnErr};
ghost use Rattle.std.specs.Io.KnownBytes.{Appends};
ghost use Rattle.eon_model.specs.Legal.{Legal};
ghost use Rattle.eon_model.specs.LiveReplies.{live_reply_text};
ghost use Rattle.eon_model.specs.NetworkText.{is_setup};
ghost use Rattle.eon_outside.specs.Faults.{Stands};
ghost use Rattle.eon_outside.specs.Writing.{AppendsPart};
ghost use Rattle.live_failure.specs.Replied.{reply_told};

use crate::live_state::Live;
use crate::printing::put_reply;
use crate::reply::LiveReply;
use eon_outside::{Failed, Sink};
use leg_state::Services;
use line_writer::SinkText;
use net_setup::NetSetup;

// Gives the whole reply, where nothing is given of the text yet.
fn give_reply<K: Sink>(
    r: &LiveReply,
    setup: &NetSetup,
    services: &Services,
    text: &mut SinkText<K>,
) -> Result<(), Failed>
    requires setup { IsTrue (is_setup setup.now) }
    requires legal { Legal setup.now services.now.list }
    requires going { text.old.stopped ≡ false }
    ensures place { text.new.out.ghost_name ≡ text.old.out.ghost_name }
    ensures bytes { OnOk result (Appends (K.given text.old.out.now) (K.given text.new.out.now) (live_reply_text setup.now.network (reply_told services.now.list r.now))) }
    ensures part { OnErr result (AppendsPart (K.given text.old.out.now) (K.given text.new.out.now) (live_reply_text setup.now.network (reply_told services.now.list r.now))) }
    ensures stands { Stands (K.standing text.old.out.now) (K.standing text.new.out.now) result }
{
    put_reply(r, setup, services, text);
    text.finish()
}

// Gives the reply, as it reads over these services.
fn write_over<K: Sink>(
    r: &LiveReply,
    setup: &NetSetup,
    services: &Services,
    out: &mut K,
) -> Result<(), Failed>
    requires setup { IsTrue (is_setup setup.now) }
    requires legal { Legal setup.now services.now.list }
    ensures bytes { OnOk result (Appends (K.given out.old) (K.given out.new) (live_reply_text setup.now.network (reply_told services.now.list r.now))) }
    ensures part { OnErr result (AppendsPart (K.given out.old) (K.given out.new) (live_reply_text setup.now.network (reply_told services.now.list r.now))) }
    ensures stands { Stands (K.standing out.old) (K.standing out.new) result }
{
    give_reply(r, setup, services, &mut SinkText::new(out))
}

/// Gives the reply to the sink, word by word, as it reads over the services of the live state. Takes no memory. Where the
/// sink fails, a proper front of it was given, and nothing more is tried.
pub fn write_live<K: Sink>(r: &LiveReply, live: &Live, out: &mut K) -> Result<(), Failed>
    ensures bytes { OnOk result (Appends (K.given out.old) (K.given out.new) (live_reply_text live.now.setup.network (reply_told live.now.state r.now))) }
    ensures part { OnErr result (AppendsPart (K.given out.old) (K.given out.new) (live_reply_text live.now.setup.network (reply_told live.now.state r.now))) }
    ensures stands { Stands (K.standing out.old) (K.standing out.new) result }
{
    write_over(r, live.setup(), live.services(), out)
}
