//! A network as the planner plans on it: its graph, its band, its reach table and its limits. The layers
//! above read its fields; a contract sees it as the setup of the planning rules.
#![tactic(auto)]

pub mod setup;

pub use eon_base::name::Name;
pub use flex_grid::band::Band;
pub use net_graph::Net;
pub use reach_table::table::Table;
pub use setup::NetSetup;
