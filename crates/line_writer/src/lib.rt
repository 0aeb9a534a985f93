//! Lines of words, printed piece by piece: into a text in memory, which is cut back where memory runs out, or to a
//! sink. A printer is generic over `TextSink`, and a list of calls of the functions below.
#![tactic(auto)]

pub mod memory_text;
pub mod sink_text;
pub mod text_sink;
pub mod words;

pub use memory_text::MemoryText;
pub use sink_text::SinkText;
pub use text_sink::TextSink;
pub use words::{
    end_line, put_centre, put_class, put_line, put_name, put_number, put_unit, put_word, put_words,
};
