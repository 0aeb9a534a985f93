//! Plans.
ghost use Rattle.std.specs.Prelude.{◌≡◌, [], ◌∷◌, ◌++◌, length, codes};
ghost use Rattle.std.specs.Fmt.{decimal};
ghost use Rattle.std.specs.List.{flat_map};
ghost use Rattle.eon_model.specs.ReplyText.{rest_words, after_words, move_line};
ghost use Rattle.eon_model.specs.Spelling.{line};
ghost use Rattle.compact_plan.specs.Told.{rest_told, move_told, moves_told, plan_told};
ghost use Rattle.line_writer.specs.Words.{behind};
ghost use Rattle.line_writer.specs.Sent.{Takes};

use crate::words::put_centres;
use compact_plan::{Move, Moves, Plan, Rest};
use eon_base::name::Name;
use line_writer::{TextSink, end_line, put_name, put_number, put_word};

// A word and a name.
#[tactic(auto, using(line_writer::proofs::WordLaws::words))]
fn put_named_word<W: TextSink>(word: &[u8], name: &Name, out: &mut W)
    ensures { Takes (W.sent out.old) (W.sent out.new) (behind (word.now ∷ name.now ∷ [])) }
{
    put_word(word, out);
    put_name(name, out);
}

// What a target rests on.
fn put_rest<W: TextSink>(rest: &Rest, out: &mut W)
    ensures { Takes (W.sent out.old) (W.sent out.new) (behind (rest_words (rest_told rest.now))) }
{
    match rest {
        Rest::Floor => put_word(b"floor", out),
        Rest::On(name) => put_named_word(b"on", name, out),
        Rest::Over(name) => put_named_word(b"over", name, out),
    }
}

// `after` and the move that is waited for, where there is one.
#[tactic(auto, using(line_writer::proofs::WordLaws::words))]
fn put_after<W: TextSink>(after: &Option<Name>, out: &mut W)
    ensures { Takes (W.sent out.old) (W.sent out.new) (behind (after_words after.now)) }
{
    if let Some(name) = after {
        put_named_word(b"after", name, out);
    }
}

// The line of a move.
#[tactic(auto, using(line_writer::proofs::WordLaws::words))]
fn put_move<W: TextSink>(target: &Move, out: &mut W)
    ensures { Takes (W.sent out.old) (W.sent out.new) (move_line (move_told target.now)) }
{
    out.put(b"move");
    put_number(target.batch as u64, out);
    put_name(&target.name, out);
    put_centres(target.from, target.to, out);
    put_rest(&target.rest, out);
    put_after(&target.after, out);
    end_line(out);
}

// The line of each move.
fn put_each_move<W: TextSink>(moves: &Moves, out: &mut W)
    ensures { Takes (W.sent out.old) (W.sent out.new) (flat_map move_line (moves_told moves.now)) }
{
    for i in 0..moves.len() {
        put_move(moves.at(i), out);
    }
}

// The first line, with the numbers of batches and of lines below.
#[tactic(auto, using(line_writer::proofs::WordLaws::words))]
fn put_plan_line<W: TextSink>(batches: usize, count: usize, out: &mut W)
    ensures { Takes (W.sent out.old) (W.sent out.new) (line (codes "plan" ∷ decimal batches ∷ decimal count ∷ [])) }
{
    out.put(b"plan");
    put_number(batches as u64, out);
    put_number(count as u64, out);
    end_line(out);
}

/// How many batches and moves there are, and the line of each move.
pub(crate) fn put_plan<W: TextSink>(plan: &Plan, out: &mut W)
    ensures { Takes (W.sent out.old) (W.sent out.new)
        (line (codes "plan" ∷ decimal plan.now.batches ∷ decimal (length (moves_told plan.now.moves)) ∷ [])
        ++ flat_map move_line (moves_told plan.now.moves)) }
{
    put_plan_line(plan.batches, plan.moves.len(), out);
    put_each_move(&plan.moves, out);
}
