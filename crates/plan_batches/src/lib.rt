//! The batches in which channels drift to their lowest places: each move in the least batch that it can have. The layer
//! above asks `batches`, and prints the plan.
#![tactic(auto)]

pub mod batching;
mod mover;
mod rows;
mod turn;

pub use batching::batches;
pub use compact_plan::{Move, Moves, Plan, Rest, Targets};
pub use leg_state::Services;
