//! The first routes between two nodes. The layer above calls `routes`, which finds the least route, and then the next
//! one as the least of those that leave the found ones, each by one run of `least_walk`.
#![tactic(auto)]

mod deviation;
mod distance;
mod least;
mod search;

pub use least::{least_walk, least_walk_in_rounds};
pub use net_graph::RouteList;
pub use search::routes;
