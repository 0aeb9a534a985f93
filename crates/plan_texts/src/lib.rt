//! The two texts that a plan is checked by, read to their first wrong line: the reply to `compact` as a plan, and a
//! line of the reply to `list` as a service with its names. The layer above may use `read_plan`, `read_count` and
//! `read_service`.
#![tactic(auto)]

mod count;
mod field;
pub mod moves;
pub mod plan;
pub mod service;

pub use count::read_count;
pub use eon_base::name::Name;
pub use moves::{Move, Rest};
pub use plan::{Plan, PlanRefusal, read_plan};
pub use service::{Demand, LegLine, PathLine, ServiceLine, read_service};
