//! Command lines made from a seed. The layer above takes word after word by `next_word`, writes the line of each by
//! `drive_line`, and tells it by `before_next` when a line has to finish what the line before began.
#![tactic(auto)]

mod buffer;
mod line;
mod words;

pub use buffer::LineBuf;
pub use line::drive_line;
pub use words::{before_next, next_word};
