//! What the words behind the program's name ask for, read with clap. The layers above may call
//! `words::words_of`, match on `Words`, and cite the laws of `laws`.
#![tactic(auto)]

pub mod laws;
pub mod words;
