//! The words of paths.
ghost use Rattle.std.specs.Prelude.{◌≡◌, ◌<◌, [], ◌∷◌, ◌++◌, length};
ghost use Rattle.std.specs.Fmt.{decimal, signed_decimal};
ghost use Rattle.eon_model.specs.Network.{AreFibres, fibre_at, names_of_fibres};
ghost use Rattle.eon_model.specs.ReplyText.{path_words};
ghost use Rattle.eon_model.specs.Spelling.{fibre_list};
ghost use Rattle.line_writer.specs.Sent.{Takes};
ghost use Rattle.line_writer.specs.Words.{behind};
ghost use Rattle.plan_report.specs.InRange.{PathInRange};
ghost use Rattle.reply_text.specs.Words.{comma_at};

use flex_grid::slot::Slot;
use leg_state::Path;
use line_writer::{TextSink, put_centre, put_number};
use net_graph::Net;

// A comma, but at the first place.
#[tactic(auto, using(line_writer::proofs::TakesLaws::takes))]
fn put_comma<W: TextSink>(place: usize, out: &mut W)
    ensures { Takes (W.sent out.old) (W.sent out.new) (comma_at place) }
{
    if place > 0 {
        out.put(b",");
    }
}

// The name of this fibre, behind a comma where it is not the first.
#[tactic(auto, using(line_writer::proofs::TakesLaws::takes))]
fn put_fibre<W: TextSink>(net: &Net, place: usize, fibre: u8, out: &mut W)
    requires { fibre < length net.now.fibres }
    ensures { Takes (W.sent out.old) (W.sent out.new) (comma_at place ++ (fibre_at net.now.fibres fibre).name) }
{
    put_comma(place, out);
    out.put(net.fibre(fibre).name.bytes());
}

// The names of these fibres, with one comma between two of them.
fn put_list<W: TextSink>(net: &Net, fibres: &[u8], out: &mut W)
    requires { AreFibres net.now.fibres fibres.now }
    ensures { Takes (W.sent out.old) (W.sent out.new) (fibre_list (names_of_fibres net.now.fibres fibres.now)) }
{
    for i in 0..fibres.len() {
        put_fibre(net, i, fibres[i], out);
    }
}

// The fibre list of these fibres.
#[tactic(auto, using(line_writer::proofs::WordLaws::one_word))]
fn put_fibres<W: TextSink>(net: &Net, fibres: &[u8], out: &mut W)
    requires { AreFibres net.now.fibres fibres.now }
    ensures { Takes (W.sent out.old) (W.sent out.new) (behind (fibre_list (names_of_fibres net.now.fibres fibres.now) ∷ [])) }
{
    out.put(b" ");
    put_list(net, fibres, out);
}

// The centre and the width of a slot.
#[tactic(auto, using(line_writer::proofs::WordLaws::words))]
fn put_slot<W: TextSink>(slot: &Slot, out: &mut W)
    ensures { Takes (W.sent out.old) (W.sent out.new) (behind (signed_decimal slot.now.n ∷ decimal slot.now.m ∷ [])) }
{
    put_centre(slot.n(), out);
    put_number(slot.m() as u64, out);
}

/// The fibres, the centre and the width of a path.
#[tactic(auto, using(line_writer::proofs::WordLaws::words))]
pub(crate) fn put_path<W: TextSink>(net: &Net, path: &Path, out: &mut W)
    requires { PathInRange net.now path.now }
    ensures { Takes (W.sent out.old) (W.sent out.new) (behind (path_words net.now path.now)) }
{
    put_fibres(net, path.route.fibres(), out);
    put_slot(&path.slot, out);
}
