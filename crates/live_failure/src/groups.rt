//! Groups, and counts, in words.
ghost use Rattle.std.specs.Prelude.{◌≡◌, [], ◌∷◌};
ghost use Rattle.std.specs.Fmt.{decimal};
ghost use Rattle.eon_model.specs.Network.{risk_name};
ghost use Rattle.eon_model.specs.ReplyText.{word_line};
ghost use Rattle.line_writer.specs.Sent.{Takes};
ghost use Rattle.line_writer.specs.Words.{behind};

use line_writer::{TextSink, end_line, put_name, put_number, put_word};
use net_graph::Net;

/// The name of the group of this number; no byte where there is none.
pub(crate) fn put_group<W: TextSink>(net: &Net, group: u8, out: &mut W)
    ensures { Takes (W.sent out.old) (W.sent out.new) (behind (risk_name net.now group ∷ [])) }
{
    let group = u16::from(group);
    if group < u16::from(net.fibres()) + u16::from(net.groups()) {
        put_name(&net.risk_name(group), out);
    } else {
        put_word(b"", out);
    }
}

/// A line of a word and the name of the group.
pub(crate) fn put_group_line<W: TextSink>(word: &[u8], net: &Net, group: u8, out: &mut W)
    ensures { Takes (W.sent out.old) (W.sent out.new) (word_line word.now (risk_name net.now group)) }
{
    out.put(word);
    put_group(net, group, out);
    end_line(out);
}

/// A line of a word and a count.
pub(crate) fn put_count<W: TextSink>(word: &[u8], count: u64, out: &mut W)
    ensures { Takes (W.sent out.old) (W.sent out.new) (word_line word.now (decimal count)) }
{
    out.put(word);
    put_number(count, out);
    end_line(out);
}
