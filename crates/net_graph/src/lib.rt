//! The network as a planner knows it: named nodes, fibres and groups by number, sets of fibres and of
//! risks, and routes with their length and risk. The layer above builds a `Net` line by line with a
//! `NetBuilder`, asks it by number and by name, and makes a `Route` of each list of fibres that is one.
#![tactic(auto)]

pub mod builder;
pub mod graph;
mod named;
pub mod route;
pub mod route_list;
pub mod sets;
pub mod walk;

pub use builder::NetBuilder;
pub use eon_model::Class;
pub use graph::{Fibre, GraphFault, Net};
pub use route::Route;
pub use route_list::RouteList;
pub use sets::{FibreSet, NodeSet, RiskSet};
pub use walk::{Stand, stand_at};
