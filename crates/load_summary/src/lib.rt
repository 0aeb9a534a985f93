//! The summary of a load: how many replies there were of each kind, and the totals of the state at the end. The layer above
//! counts each reply with `Tally::count`, and prints with `summary`.
#![tactic(auto)]

mod kind;
pub mod laws;
mod tally;
mod text;

pub use tally::Tally;
pub use text::summary;
