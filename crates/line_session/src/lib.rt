//! Runs of a machine over a stream of lines. The layer above implements `Answerer` for what answers one line, and calls
//! `LineSession::answer_stream`, which reads the stream in pieces, cuts it into lines, and has replies held back so that they are
//! written in large pieces.
#![tactic(auto)]

pub mod answerer;
pub mod session;

pub use answerer::{Answerer, Flow, Stopped};
pub use session::{LineSession, Outcome, give_held};
