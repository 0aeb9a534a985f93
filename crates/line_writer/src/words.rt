//! The words of a line.
ghost use Rattle.std.specs.Prelude.{◌≡◌, [], ◌∷◌, ◌++◌, map};
ghost use Rattle.std.specs.Fmt.{decimal, signed_decimal};
ghost use Rattle.eon_model.specs.Listings.{class_word};
ghost use Rattle.eon_model.specs.Spelling.{line};
ghost use Rattle.line_writer.specs.Sent.{Takes};
ghost use Rattle.line_writer.specs.Words.{behind};

use crate::text_sink::TextSink;
use eon_base::name::Name;
use eon_base::number::{digits, signed};
use eon_model::Class;

/// A space and a word.
#[tactic(auto, using(crate::proofs::WordLaws::one_word))]
pub fn put_word<W: TextSink>(word: &[u8], out: &mut W)
    ensures { Takes (W.sent out.old) (W.sent out.new) (behind (word.now ∷ [])) }
{
    out.put(b" ");
    out.put(word);
}

/// A space and a name.
pub fn put_name<W: TextSink>(name: &Name, out: &mut W)
    ensures { Takes (W.sent out.old) (W.sent out.new) (behind (name.now ∷ [])) }
{
    put_word(name.bytes(), out);
}

/// A space and a number in decimal digits.
pub fn put_number<W: TextSink>(number: u64, out: &mut W)
    ensures { Takes (W.sent out.old) (W.sent out.new) (behind (decimal number ∷ [])) }
{
    put_word(digits(number).bytes(), out);
}

/// A space and a centre, in units of 6.25 GHz from 193.1 THz.
pub fn put_centre<W: TextSink>(n: i16, out: &mut W)
    ensures { Takes (W.sent out.old) (W.sent out.new) (behind (signed_decimal n ∷ [])) }
{
    put_word(signed(i64::from(n)).bytes(), out);
}

/// A space and a unit of 6.25 GHz.
pub fn put_unit<W: TextSink>(unit: i32, out: &mut W)
    ensures { Takes (W.sent out.old) (W.sent out.new) (behind (signed_decimal unit ∷ [])) }
{
    put_word(signed(i64::from(unit)).bytes(), out);
}

/// A space and the word of a class.
pub fn put_class<W: TextSink>(class: Class, out: &mut W)
    ensures { Takes (W.sent out.old) (W.sent out.new) (behind (class_word class ∷ [])) }
{
    match class {
        Class::Bare => put_word(b"bare", out),
        Class::Shared => put_word(b"shared", out),
        Class::Dual => put_word(b"dual", out),
    }
}

/// A space and a word, for each of these words.
pub fn put_words<W: TextSink>(words: &[&[u8]], out: &mut W)
    ensures { Takes (W.sent out.old) (W.sent out.new) (behind (map (λ w. w.now) words.now)) }
{
    for word in words {
        put_word(word, out);
    }
}

/// The end of a line.
pub fn end_line<W: TextSink>(out: &mut W)
    ensures { Takes (W.sent out.old) (W.sent out.new) (10 ∷ []) }
{
    out.put(b"\n");
}

/// A line of a first word and these behind it.
pub fn put_line<W: TextSink>(first: &[u8], rest: &[&[u8]], out: &mut W)
    ensures { Takes (W.sent out.old) (W.sent out.new) (line (first.now ∷ map (λ w. w.now) rest.now)) }
{
    out.put(first);
    put_words(rest, out);
    end_line(out);
}
