//! A reply that is added to a text in memory.
ghost use Rattle.std.specs.Prelude.{◌≡◌, ◌++◌, length, false, IsTrue, OnOk, OnErr};
ghost use Rattle.eon_model.specs.Legal.{Legal};
ghost use Rattle.eon_model.specs.NetworkText.{is_setup};
ghost use Rattle.eon_model.specs.ReplyText.{reply_text};
ghost use Rattle.reply_text.specs.Replied.{reply_told};
ghost use Rattle.reply_text.specs.Tellable.{can_tell};

use crate::printing::put_reply;
use crate::reply::Reply;
use leg_state::Services;
use line_writer::MemoryText;
use net_setup::NetSetup;
use std::alloc::AllocError;

// Adds the whole reply, where nothing stands of the text yet.
fn keep_reply(
    r: &Reply,
    setup: &NetSetup,
    services: &Services,
    text: &mut MemoryText,
) -> Result<(), AllocError>
    requires setup { IsTrue (is_setup setup.now) }
    requires legal { Legal setup.now services.now.list }
    requires there { IsTrue (can_tell setup.now services.now.list (reply_told r.now)) }
    requires going { text.old.stopped ≡ false }
    requires begins { text.old.begins ≡ length text.old.bytes.now.items }
    ensures place { text.new.bytes.ghost_name ≡ text.old.bytes.ghost_name }
    ensures ok { OnOk result (text.new.bytes.now.items ≡ text.old.bytes.now.items ++ reply_text setup.now services.now.list (reply_told r.now)) }
    ensures err { OnErr result (text.new.bytes.now.items ≡ text.old.bytes.now.items) }
{
    put_reply(r, setup, services, text);
    text.finish()
}

/// Adds the reply at the end, as it reads in this state, the one after the change. Where memory runs out, the
/// text is as before.
pub fn print_reply(
    r: &Reply,
    setup: &NetSetup,
    services: &Services,
    out: &mut Vec<u8>,
) -> Result<(), AllocError>
    requires setup { IsTrue (is_setup setup.now) }
    requires legal { Legal setup.now services.now.list }
    requires there { IsTrue (can_tell setup.now services.now.list (reply_told r.now)) }
    ensures ok { OnOk result (out.new.items ≡ out.old.items ++ reply_text setup.now services.now.list (reply_told r.now)) }
    ensures err { OnErr result (out.new.items ≡ out.old.items) }
{
    keep_reply(r, setup, services, &mut MemoryText::new(out))
}
