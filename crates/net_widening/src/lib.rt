//! Whether a network is wider than another, so that a journal that is bound to the other may be bound to it. The layer
//! above asks what it is narrower in.
#![tactic(auto)]

mod band;
mod formats;
mod names;
pub mod narrower;
mod network;

pub use narrower::{Narrower, narrower_in};
