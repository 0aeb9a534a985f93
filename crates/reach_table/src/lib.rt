//! The reach table of a network: which modulation format carries a rate over a length, and how wide its
//! slot is. The layers above may use `format` and `table`.
#![tactic(auto)]

pub mod format;
pub mod table;
