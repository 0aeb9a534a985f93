//! A plan judged by itself, against a list of services at rest: move by move, with the moves of lower batches at their
//! targets. The layer above reads the list's text by `read_list` and asks `judge_text` for the plan's, or `judge` for moves
//! that are read; nothing of how plans are made is part of it.
#![tactic(auto)]

pub mod bad;
mod entering;
pub mod judging;
pub mod list;
mod numbered;
pub mod verdict;

pub use bad::{Bad, BadMove};
pub use judging::judge;
pub use list::{ListRefusal, ListWhy, read_list};
pub use plan_texts::{Move, Rest};
pub use verdict::{Verdict, judge_text};
