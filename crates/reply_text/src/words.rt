//! Words of a line in twos.
ghost use Rattle.std.specs.Prelude.{◌≡◌, [], ◌∷◌};
ghost use Rattle.std.specs.Fmt.{decimal, signed_decimal};
ghost use Rattle.line_writer.specs.Sent.{Takes};
ghost use Rattle.line_writer.specs.Words.{behind};

use line_writer::{TextSink, put_centre, put_number, put_word};

/// A word and a number.
#[tactic(auto, using(line_writer::proofs::WordLaws::words))]
pub(crate) fn put_count<W: TextSink>(word: &[u8], count: u32, out: &mut W)
    ensures { Takes (W.sent out.old) (W.sent out.new) (behind (word.now ∷ decimal count ∷ [])) }
{
    put_word(word, out);
    put_number(count as u64, out);
}

/// A centre and another.
#[tactic(auto, using(line_writer::proofs::WordLaws::words))]
pub(crate) fn put_centres<W: TextSink>(from: i16, to: i16, out: &mut W)
    ensures { Takes (W.sent out.old) (W.sent out.new) (behind (signed_decimal from ∷ signed_decimal to ∷ [])) }
{
    put_centre(from, out);
    put_centre(to, out);
}
