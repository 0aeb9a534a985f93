//! The candidates of a demand: working routes, each with its backup routes where the demand is protected, and the slot
//! widths that the rate needs on them. The layer above calls `pairs`, and reads or takes a pair by its rank;
//! `routes_within` gives the routes alone, and `pairs_over` the candidates over routes that are at hand.
#![tactic(auto)]

mod demand;
mod given;
mod reach;
mod sharers;

pub use demand::{PairList, pairs, pairs_counted};
pub use given::pairs_over;
pub use leg_state::{Class, Pair, Spare};
pub use reach::{backups_of, routes_within, routes_within_counted};
pub use sharers::avoided;
