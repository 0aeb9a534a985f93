//! Printing a reply.
ghost use Rattle.std.specs.Prelude.{◌≡◌, [], ◌∷◌, ◌++◌, codes, IsTrue};
ghost use Rattle.std.specs.Fmt.{decimal, signed_decimal};
ghost use Rattle.eon_model.specs.Legal.{Legal};
ghost use Rattle.eon_model.specs.NetworkText.{is_setup};
ghost use Rattle.eon_model.specs.ReplyText.{reply_text, part_word, word_line, ok_line, totals_line, old_leg_words, second_leg_words};
ghost use Rattle.eon_model.specs.Spelling.{line};
ghost use Rattle.line_writer.specs.Words.{behind};
ghost use Rattle.reply_text.specs.Replied.{reply_told};
ghost use Rattle.line_writer.specs.Sent.{Takes};
ghost use Rattle.reply_text.specs.Tellable.{can_tell};

use crate::drills::put_drill;
use crate::listing::{put_routes, put_services};
use crate::plans::put_plan;
use crate::reply::Reply;
use crate::services::{put_named, put_old_leg, put_second_leg};
use crate::words::{put_centres, put_count};
use eon_base::name::Name;
use eon_model::Part;
use leg_state::Services;
use line_writer::{TextSink, end_line, put_line, put_name, put_number, put_word};
use net_setup::NetSetup;
use plan_report::Stats;

// A line of one word.
fn put_alone<W: TextSink>(word: &[u8], out: &mut W)
    ensures { Takes (W.sent out.old) (W.sent out.new) (line (word.now ∷ [])) }
{
    put_line(word, &[], out);
}

// A line of a word and one behind it.
fn put_two<W: TextSink>(word: &[u8], other: &[u8], out: &mut W)
    ensures { Takes (W.sent out.old) (W.sent out.new) (word_line word.now other.now) }
{
    put_line(word, &[other], out);
}

// A line of a word and a name.
fn put_name_line<W: TextSink>(word: &[u8], name: &Name, out: &mut W)
    ensures { Takes (W.sent out.old) (W.sent out.new) (word_line word.now name.now) }
{
    put_two(word, name.bytes(), out);
}

// A line of a word and a number.
fn put_number_line<W: TextSink>(word: &[u8], number: u16, out: &mut W)
    ensures { Takes (W.sent out.old) (W.sent out.new) (word_line word.now (decimal number)) }
{
    out.put(word);
    put_number(number as u64, out);
    end_line(out);
}

// A line of a word and one of the two paths.
fn put_part_line<W: TextSink>(word: &[u8], part: Part, out: &mut W)
    ensures { Takes (W.sent out.old) (W.sent out.new) (word_line word.now (part_word part)) }
{
    match part {
        Part::Work => put_two(word, b"work", out),
        Part::Backup => put_two(word, b"backup", out),
    }
}

// How many bytes are wanted, and how many are left.
fn put_full_journal<W: TextSink>(need: u32, left: u32, out: &mut W)
    ensures { Takes (W.sent out.old) (W.sent out.new) (line (codes "full" ∷ codes "journal" ∷ decimal need ∷ decimal left ∷ [])) }
{
    out.put(b"full");
    put_count(b"journal", need, out);
    put_number(left as u64, out);
    end_line(out);
}

// `ok`, the word of the command and the name.
fn begin_ok<W: TextSink>(word: &[u8], name: &Name, out: &mut W)
    ensures { Takes (W.sent out.old) (W.sent out.new) (codes "ok" ++ behind (word.now ∷ name.now ∷ [])) }
{
    out.put(b"ok");
    put_word(word, out);
    put_name(name, out);
}

// `ok`, the word of the command and the name.
fn put_ok<W: TextSink>(word: &[u8], name: &Name, out: &mut W)
    ensures { Takes (W.sent out.old) (W.sent out.new) (ok_line word.now name.now []) }
{
    begin_ok(word, name, out);
    end_line(out);
}

// The same and a leg that was placed.
fn put_placed<W: TextSink>(
    word: &[u8],
    name: &Name,
    setup: &NetSetup,
    services: &Services,
    out: &mut W,
)
    requires setup { IsTrue (is_setup setup.now) }
    requires legal { Legal setup.now services.now.list }
    ensures { Takes (W.sent out.old) (W.sent out.new) (ok_line word.now name.now (old_leg_words setup.now.network services.now.list name.now)) }
{
    begin_ok(word, name, out);
    put_old_leg(setup, services, name, out);
    end_line(out);
}

// The same and the new leg.
fn put_made<W: TextSink>(name: &Name, setup: &NetSetup, services: &Services, out: &mut W)
    requires setup { IsTrue (is_setup setup.now) }
    requires legal { Legal setup.now services.now.list }
    ensures { Takes (W.sent out.old) (W.sent out.new) (ok_line (codes "make") name.now (second_leg_words setup.now.network services.now.list name.now)) }
{
    begin_ok(b"make", name, out);
    put_second_leg(setup, services, name, out);
    end_line(out);
}

// The same and two centres.
fn put_moved<W: TextSink>(word: &[u8], name: &Name, from: i16, to: i16, out: &mut W)
    ensures { Takes (W.sent out.old) (W.sent out.new) (ok_line word.now name.now (signed_decimal from ∷ signed_decimal to ∷ [])) }
{
    begin_ok(word, name, out);
    put_centres(from, to, out);
    end_line(out);
}

// The totals.
fn put_stats<W: TextSink>(stats: &Stats, out: &mut W)
    ensures { Takes (W.sent out.old) (W.sent out.new) (totals_line stats.now) }
{
    out.put(b"stats");
    put_count(b"services", stats.services, out);
    put_count(b"protected", stats.protected, out);
    put_count(b"drifting", stats.drifting, out);
    put_count(b"making", stats.making, out);
    put_count(b"lit", stats.lit, out);
    put_count(b"held", stats.held, out);
    end_line(out);
}

// A text and the end of its line.
#[tactic(auto, using(line_writer::proofs::TakesLaws::takes))]
fn put_text<W: TextSink>(text: &[u8], out: &mut W)
    ensures { Takes (W.sent out.old) (W.sent out.new) (text.now ++ 10 ∷ []) }
{
    out.put(text);
    end_line(out);
}

// The reply.
pub(crate) fn put_reply<W: TextSink>(r: &Reply, setup: &NetSetup, services: &Services, out: &mut W)
    requires setup { IsTrue (is_setup setup.now) }
    requires legal { Legal setup.now services.now.list }
    requires there { IsTrue (can_tell setup.now services.now.list (reply_told r.now)) }
    ensures { Takes (W.sent out.old) (W.sent out.new) (reply_text setup.now services.now.list (reply_told r.now)) }
{
    match r {
        Reply::Line { at } => put_number_line(b"line", *at, out),
        Reply::Unknown { name } => put_name_line(b"unknown", name, out),
        Reply::Taken { name } => put_name_line(b"taken", name, out),
        Reply::Busy { name } => put_name_line(b"busy", name, out),
        Reply::Idle { name } => put_name_line(b"idle", name, out),
        Reply::Same { name } => put_name_line(b"same", name, out),
        Reply::Bare { name } => put_name_line(b"bare", name, out),
        Reply::Dual { name } => put_name_line(b"dual", name, out),
        Reply::Clash { name } => put_name_line(b"clash", name, out),
        Reply::Risk { name } => put_name_line(b"risk", name, out),
        Reply::Path { part } => put_part_line(b"path", *part, out),
        Reply::Reach { part } => put_part_line(b"reach", *part, out),
        Reply::Band { part } => put_part_line(b"band", *part, out),
        Reply::FullServices => put_two(b"full", b"services", out),
        Reply::NoRoute => put_alone(b"noroute", out),
        Reply::Blocked { pairs } => put_number_line(b"blocked", *pairs, out),
        Reply::FullJournal { need, left } => put_full_journal(*need, *left, out),
        Reply::Memory => put_alone(b"memory", out),
        Reply::Placed { name } => put_placed(b"place", name, setup, services, out),
        Reply::Admitted { name } => put_placed(b"admit", name, setup, services, out),
        Reply::Made { name } => put_made(name, setup, services, out),
        Reply::Released { name } => put_ok(b"release", name, out),
        Reply::Pushed { name, from, to } => put_moved(b"push", name, *from, *to, out),
        Reply::Finished { name } => put_ok(b"finish", name, out),
        Reply::Backed { name } => put_ok(b"back", name, out),
        Reply::Refitted { name, from, to } => put_moved(b"refit", name, *from, *to, out),
        Reply::Show { name } => put_named(setup, services, name, out),
        Reply::List => put_services(setup, services, out),
        Reply::Routes { routes } => put_routes(setup, routes, out),
        Reply::Drill { group, hits } => put_drill(setup, group, hits, out),
        Reply::Plan { plan } => put_plan(plan, out),
        Reply::Map { text } => out.put(text.bytes()),
        Reply::Stats { stats } => put_stats(stats, out),
        Reply::Report { text } => put_text(text.bytes(), out),
        Reply::Bye => put_alone(b"bye", out),
    }
}
