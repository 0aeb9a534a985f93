//! The words of legs.
ghost use Rattle.std.specs.Prelude.{◌≡◌, [], ◌∷◌, IfSome};
ghost use Rattle.std.specs.Fmt.{decimal, signed_decimal};
ghost use Rattle.eon_model.specs.ReplyText.{path_words, backup_words, leg_words, target_words, new_leg_words};
ghost use Rattle.plan_report.specs.InRange.{PathInRange, LegInRange};
ghost use Rattle.line_writer.specs.Words.{behind};
ghost use Rattle.line_writer.specs.Sent.{Takes};

use crate::fibre_lists::put_fibres;
use flex_grid::slot::Slot;
use leg_state::{Leg, Path};
use line_writer::{TextSink, put_centre, put_number, put_word};
use net_graph::Net;

/// The centre and the width of a slot.
#[tactic(auto, using(line_writer::proofs::WordLaws::words))]
pub(crate) fn put_slot<W: TextSink>(slot: &Slot, out: &mut W)
    ensures { Takes (W.sent out.old) (W.sent out.new) (behind (signed_decimal slot.now.n ∷ decimal slot.now.m ∷ [])) }
{
    put_centre(slot.n(), out);
    put_number(slot.m() as u64, out);
}

#[tactic(auto, using(line_writer::proofs::WordLaws::words))]
fn put_path<W: TextSink>(net: &Net, path: &Path, out: &mut W)
    requires { PathInRange net.now path.now }
    ensures { Takes (W.sent out.old) (W.sent out.new) (behind (path_words net.now path.now)) }
{
    put_fibres(net, path.route.fibres(), out);
    put_slot(&path.slot, out);
}

#[tactic(auto, using(line_writer::proofs::WordLaws::words))]
fn put_backup<W: TextSink>(net: &Net, back: &Option<Path>, out: &mut W)
    requires { IfSome back.now (PathInRange net.now) }
    ensures { Takes (W.sent out.old) (W.sent out.new) (behind (backup_words net.now back.now)) }
{
    if let Some(path) = back {
        put_word(b"b", out);
        put_path(net, path, out);
    }
}

/// `w` and the working path, and `b` and the backup if there is one.
#[tactic(auto, using(line_writer::proofs::WordLaws::words))]
pub(crate) fn put_leg<W: TextSink>(net: &Net, leg: &Leg, out: &mut W)
    requires { LegInRange net.now leg.now }
    ensures { Takes (W.sent out.old) (W.sent out.new) (behind (leg_words net.now leg.now)) }
{
    put_word(b"w", out);
    put_path(net, &leg.work, out);
    put_backup(net, &leg.back, out);
}

#[tactic(auto, using(line_writer::proofs::WordLaws::words))]
fn put_to<W: TextSink>(to: &Option<i16>, out: &mut W)
    ensures { Takes (W.sent out.old) (W.sent out.new) (behind (target_words to.now)) }
{
    if let Some(to) = to {
        put_word(b"to", out);
        put_centre(*to, out);
    }
}

/// `to` and the centre, while it drifts.
pub(crate) fn put_target<W: TextSink>(leg: &Leg, out: &mut W)
    ensures { Takes (W.sent out.old) (W.sent out.new) (behind (target_words leg.now.to)) }
{
    put_to(&leg.to, out);
}

/// `and` and the new leg, while it is making.
#[tactic(auto, using(line_writer::proofs::WordLaws::words))]
pub(crate) fn put_new_leg<W: TextSink>(net: &Net, next: &Option<Leg>, out: &mut W)
    requires { IfSome next.now (LegInRange net.now) }
    ensures { Takes (W.sent out.old) (W.sent out.new) (behind (new_leg_words net.now next.now)) }
{
    if let Some(leg) = next {
        put_word(b"and", out);
        put_leg(net, leg, out);
    }
}
