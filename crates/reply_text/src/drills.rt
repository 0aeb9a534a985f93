//! What a failure takes down.
ghost use Rattle.std.specs.Prelude.{◌≡◌, [], ◌∷◌, ◌++◌, length, codes, IsTrue, IfSome};
ghost use Rattle.std.specs.Fmt.{decimal};
ghost use Rattle.std.specs.List.{flat_map, list_all};
ghost use Rattle.eon_model.specs.ReplyText.{path_words, switch_words, hit_line};
ghost use Rattle.eon_model.specs.Spelling.{line};
ghost use Rattle.line_writer.specs.Words.{behind};
ghost use Rattle.line_writer.specs.Sent.{Takes};
ghost use Rattle.plan_report.specs.InRange.{PathInRange};
ghost use Rattle.reply_text.specs.Tellable.{can_switch};

use crate::fibre_lists::put_fibre_numbers;
use crate::legs::put_slot;
use eon_base::name::Name;
use failure_drill::{DrillList, Hit, HitPath};
use line_writer::{TextSink, end_line, put_name, put_number, put_word};
use net_graph::Net;
use net_setup::NetSetup;

// The fibres and the slot of the path that takes over.
#[tactic(auto, using(line_writer::proofs::WordLaws::words))]
fn put_hit_path<W: TextSink>(net: &Net, path: &HitPath, out: &mut W)
    requires { PathInRange net.now path.now }
    ensures { Takes (W.sent out.old) (W.sent out.new) (behind (path_words net.now path.now)) }
{
    put_fibre_numbers(net, &path.fibres, out);
    put_slot(&path.slot, out);
}

// `b` and the path that takes over, or `dark`.
#[tactic(auto, using(line_writer::proofs::WordLaws::words))]
fn put_switch<W: TextSink>(net: &Net, back: &Option<HitPath>, out: &mut W)
    requires { IfSome back.now (PathInRange net.now) }
    ensures { Takes (W.sent out.old) (W.sent out.new) (behind (switch_words net.now back.now)) }
{
    match back {
        Some(path) => {
            put_word(b"b", out);
            put_hit_path(net, path, out);
        }
        None => put_word(b"dark", out),
    }
}

// The line of a leg that is hit.
#[tactic(auto, using(line_writer::proofs::WordLaws::words))]
fn put_hit<W: TextSink>(net: &Net, hit: &Hit, out: &mut W)
    requires { IfSome hit.now.back (PathInRange net.now) }
    ensures { Takes (W.sent out.old) (W.sent out.new) (hit_line net.now hit.now) }
{
    out.put(b"hit");
    put_name(&hit.name, out);
    put_number(hit.leg as u64, out);
    put_switch(net, &hit.back, out);
    end_line(out);
}

// The line of each leg that is hit.
fn put_each_hit<W: TextSink>(setup: &NetSetup, hits: &DrillList, out: &mut W)
    requires { IsTrue (list_all (can_switch setup.now) hits.now) }
    ensures { Takes (W.sent out.old) (W.sent out.new) (flat_map (hit_line setup.now.network) hits.now) }
{
    for i in 0..hits.len() {
        put_hit(&setup.net, hits.at(i), out);
    }
}

// The first line, with the group and the number of lines below.
#[tactic(auto, using(line_writer::proofs::WordLaws::words))]
fn put_drill_line<W: TextSink>(group: &Name, count: usize, out: &mut W)
    ensures { Takes (W.sent out.old) (W.sent out.new) (line (codes "drill" ∷ group.now ∷ decimal count ∷ [])) }
{
    out.put(b"drill");
    put_name(group, out);
    put_number(count as u64, out);
    end_line(out);
}

/// The group and how many legs it hits, and the line of each.
pub(crate) fn put_drill<W: TextSink>(setup: &NetSetup, group: &Name, hits: &DrillList, out: &mut W)
    requires { IsTrue (list_all (can_switch setup.now) hits.now) }
    ensures { Takes (W.sent out.old) (W.sent out.new)
        (line (codes "drill" ∷ group.now ∷ decimal (length hits.now) ∷ []) ++ flat_map (hit_line setup.now.network) hits.now) }
{
    put_drill_line(group, hits.len(), out);
    put_each_hit(setup, hits, out);
}
