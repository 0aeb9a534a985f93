//! Printing a reply.
ghost use Rattle.std.specs.Prelude.{◌≡◌, [], ◌∷◌, ◌++◌, codes, length, map, IsTrue, IfSome, Option};
ghost use Rattle.std.specs.Fmt.{decimal};
ghost use Rattle.std.specs.List.{flat_map};
ghost use Rattle.std.specs.Option.{option_map, option_to_list};
ghost use Rattle.eon_model.specs.Legal.{Legal};
ghost use Rattle.eon_model.specs.LiveFailure as model;
ghost use Rattle.eon_model.specs.LiveReplies.{live_reply_text, weak_line, pair_words};
ghost use Rattle.eon_model.specs.Network.{risk_name};
ghost use Rattle.eon_model.specs.NetworkText.{is_setup};
ghost use Rattle.eon_model.specs.ReplyText.{word_line};
ghost use Rattle.eon_model.specs.Spelling.{line};
ghost use Rattle.line_writer.specs.Sent.{Takes};
ghost use Rattle.line_writer.specs.Words.{behind};
ghost use Rattle.live_failure.specs.Replied.{reply_told, weak_told, pair_told, audit_told};

use crate::fates::put_failed;
use crate::groups::{put_count, put_group, put_group_line};
use crate::lighting::put_lights;
use crate::reply::{Audit, GroupPair, LiveReply, Weak};
use eon_base::name::Name;
use leg_state::Services;
use line_writer::{TextSink, end_line, put_line, put_name, put_number, put_word};
use net_graph::Net;
use net_setup::NetSetup;

// A line of one word.
fn put_alone<W: TextSink>(word: &[u8], out: &mut W)
    ensures { Takes (W.sent out.old) (W.sent out.new) (line (word.now ∷ [])) }
{
    put_line(word, &[], out);
}

// A line of a word and a name.
fn put_name_line<W: TextSink>(word: &[u8], name: &Name, out: &mut W)
    ensures { Takes (W.sent out.old) (W.sent out.new) (word_line word.now name.now) }
{
    put_line(word, &[name.bytes()], out);
}

// The place of a fault.
fn put_fault<W: TextSink>(at: u16, out: &mut W)
    ensures { Takes (W.sent out.old) (W.sent out.new) (word_line (codes "line") (decimal at)) }
{
    out.put(b"line");
    put_number(at as u64, out);
    end_line(out);
}

// `ok repair` and the group.
fn put_repaired<W: TextSink>(net: &Net, group: u8, out: &mut W)
    ensures { Takes (W.sent out.old) (W.sent out.new) (line (codes "ok" ∷ codes "repair" ∷ risk_name net.now group ∷ [])) }
{
    out.put(b"ok");
    put_word(b"repair", out);
    put_group(net, group, out);
    end_line(out);
}

// The line of a service that one group more makes dark.
fn put_weak<W: TextSink>(net: &Net, weak: &Weak, out: &mut W)
    ensures { Takes (W.sent out.old) (W.sent out.new) (weak_line net.now (weak_told weak.now)) }
{
    out.put(b"weak");
    put_name(&weak.name, out);
    put_group(net, weak.group, out);
    end_line(out);
}

// The line of each.
fn put_each_weak<W: TextSink>(net: &Net, weak: &[Weak], out: &mut W)
    ensures { Takes (W.sent out.old) (W.sent out.new) (flat_map (weak_line net.now) (map weak_told weak.now)) }
{
    for one in weak {
        put_weak(net, one, out);
    }
}

// How many there are, and the line of each.
fn put_exposed<W: TextSink>(net: &Net, weak: &[Weak], out: &mut W)
    ensures { Takes (W.sent out.old) (W.sent out.new)
        (word_line (codes "exposed") (decimal (length (map weak_told weak.now))) ++ flat_map (weak_line net.now) (map weak_told weak.now)) }
{
    put_count(b"exposed", weak.len() as u64, out);
    put_each_weak(net, weak, out);
}

// The names of the two groups, if there is a pair.
#[tactic(auto, using(line_writer::proofs::WordLaws::words))]
fn put_pair<W: TextSink>(net: &Net, pair: &Option<GroupPair>, out: &mut W)
    ensures { Takes (W.sent out.old) (W.sent out.new) (behind (pair_words net.now (option_map pair_told pair.now))) }
{
    if let Some(pair) = pair {
        put_group(net, pair.one, out);
        put_group(net, pair.two, out);
    }
}

// The name, the number of pairs, and the first.
fn put_audit<W: TextSink>(net: &Net, name: &Name, audit: &Audit, out: &mut W)
    ensures { Takes (W.sent out.old) (W.sent out.new)
        (line (codes "audit" ∷ name.now ∷ decimal audit.now.pairs ∷ pair_words net.now (option_map pair_told audit.now.first))) }
{
    out.put(b"audit");
    put_name(name, out);
    put_number(audit.pairs as u64, out);
    put_pair(net, &audit.first, out);
    end_line(out);
}

/// The reply.
pub(crate) fn put_reply<W: TextSink>(
    r: &LiveReply,
    setup: &NetSetup,
    services: &Services,
    out: &mut W,
)
    requires setup { IsTrue (is_setup setup.now) }
    requires legal { Legal setup.now services.now.list }
    ensures { Takes (W.sent out.old) (W.sent out.new) (live_reply_text setup.now.network (reply_told services.now.list r.now)) }
{
    match r {
        LiveReply::Line { at } => put_fault(*at, out),
        LiveReply::Unknown { name } => put_name_line(b"unknown", name, out),
        LiveReply::HasFailed { group } => put_group_line(b"failed", &setup.net, *group, out),
        LiveReply::Failed { group } => put_failed(setup, services, *group, out),
        LiveReply::Intact => put_alone(b"intact", out),
        LiveReply::Repaired { group } => put_repaired(&setup.net, *group, out),
        LiveReply::Lights { failed } => put_lights(setup, services, *failed, out),
        LiveReply::Exposed { weak } => put_exposed(&setup.net, weak, out),
        LiveReply::Audit { name, audit } => put_audit(&setup.net, name, audit, out),
        LiveReply::Memory => put_alone(b"memory", out),
        LiveReply::Bye => put_alone(b"bye", out),
    }
}
