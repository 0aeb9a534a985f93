//! What a failure takes down and what takes over: each leg whose working route a group hits, with its backup. The layer
//! above asks `drill`, and prints the list.
#![tactic(auto)]

pub mod drill_list;
pub mod drilling;
pub mod hit;
mod noted_route;

pub use drill_list::DrillList;
pub use drilling::drill;
pub use hit::{Hit, HitPath};
