//! Printing a reply.
ghost use Rattle.std.specs.Prelude.{◌≡◌, [], ◌∷◌, ◌++◌, codes, length, map};
ghost use Rattle.std.specs.Fmt.{decimal};
ghost use Rattle.std.specs.List.{flat_map};
ghost use Rattle.eon_model.specs.ReplyText.{word_line};
ghost use Rattle.eon_model.specs.RoomReplies.{shift_line};
ghost use Rattle.eon_model.specs.Spelling.{line};
ghost use Rattle.line_writer.specs.Sent.{Takes};
ghost use Rattle.make_room.specs.Shifts.{shift_told};
ghost use Rattle.room_lines.specs.Replied.{text_of};

use crate::reply::RoomReply;
use eon_base::name::Name;
use line_writer::{TextSink, end_line, put_centre, put_line, put_name, put_number};
use make_room::{Shift, Shifts};

// A line of one word.
fn put_alone<W: TextSink>(word: &[u8], out: &mut W)
    ensures { Takes (W.sent out.old) (W.sent out.new) (line (word.now ∷ [])) }
{
    put_line(word, &[], out);
}

// A line of a word and one behind it.
fn put_two<W: TextSink>(word: &[u8], other: &[u8], out: &mut W)
    ensures { Takes (W.sent out.old) (W.sent out.new) (word_line word.now other.now) }
{
    put_line(word, &[other], out);
}

// A line of a word and a name.
fn put_name_line<W: TextSink>(word: &[u8], name: &Name, out: &mut W)
    ensures { Takes (W.sent out.old) (W.sent out.new) (word_line word.now name.now) }
{
    put_two(word, name.bytes(), out);
}

// A line of a word and a count.
fn put_count<W: TextSink>(word: &[u8], count: u64, out: &mut W)
    ensures { Takes (W.sent out.old) (W.sent out.new) (word_line word.now (decimal count)) }
{
    out.put(word);
    put_number(count, out);
    end_line(out);
}

// `noroom`, why, and the name of the service.
fn put_noroom<W: TextSink>(why: &[u8], name: &Name, out: &mut W)
    ensures { Takes (W.sent out.old) (W.sent out.new) (line (codes "noroom" ∷ why.now ∷ name.now ∷ [])) }
{
    put_line(b"noroom", &[why, name.bytes()], out);
}

// The line of a move.
fn put_shift<W: TextSink>(shift: &Shift, out: &mut W)
    ensures { Takes (W.sent out.old) (W.sent out.new) (shift_line (shift_told shift.now)) }
{
    out.put(b"move");
    put_name(&shift.name, out);
    put_centre(shift.from, out);
    put_centre(shift.to, out);
    end_line(out);
}

// The line of each.
fn put_each_shift<W: TextSink>(shifts: &[Shift], out: &mut W)
    ensures { Takes (W.sent out.old) (W.sent out.new) (flat_map shift_line (map shift_told shifts.now)) }
{
    for shift in shifts {
        put_shift(shift, out);
    }
}

// How many there are, and the line of each.
fn put_moves<W: TextSink>(shifts: &[Shift], out: &mut W)
    ensures { Takes (W.sent out.old) (W.sent out.new)
        (word_line (codes "room") (decimal (length (map shift_told shifts.now))) ++ flat_map shift_line (map shift_told shifts.now)) }
{
    put_count(b"room", shifts.len() as u64, out);
    put_each_shift(shifts, out);
}

// The same for the moves of a reply.
fn put_shifts<W: TextSink>(shifts: &Shifts, out: &mut W)
    ensures { Takes (W.sent out.old) (W.sent out.new)
        (word_line (codes "room") (decimal (length (map shift_told shifts.now.list.items))) ++ flat_map shift_line (map shift_told shifts.now.list.items)) }
{
    put_moves(&shifts.list, out);
}

/// The reply.
pub(crate) fn put_reply<W: TextSink>(r: &RoomReply, out: &mut W)
    ensures { Takes (W.sent out.old) (W.sent out.new) (text_of r.now) }
{
    match r {
        RoomReply::Line { at } => put_count(b"line", *at as u64, out),
        RoomReply::Unknown { name } => put_name_line(b"unknown", name, out),
        RoomReply::Path => put_two(b"path", b"work", out),
        RoomReply::Reach => put_two(b"reach", b"work", out),
        RoomReply::Band => put_two(b"band", b"work", out),
        RoomReply::Busy { name } => put_name_line(b"busy", name, out),
        RoomReply::Over { name } => put_noroom(b"over", name, out),
        RoomReply::At { name } => put_noroom(b"at", name, out),
        RoomReply::Moves(shifts) => put_shifts(shifts, out),
        RoomReply::Memory => put_alone(b"memory", out),
        RoomReply::Bye => put_alone(b"bye", out),
    }
}
