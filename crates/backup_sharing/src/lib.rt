//! Shared backups: for each group that can fail, how many backups that it calls for hold each unit of each fibre. The
//! layers above add and take backups, and ask where another one may stand: a unit is shared only by backups that no one
//! group calls for together. A backup that is lit, as that of a dual service, is no shared one, and never added here.
#![tactic(auto)]

mod added;
mod barred;
mod groups;
mod own;
pub mod sharing;

pub use flex_grid::band::Band;
pub use flex_grid::units::Units;
pub use net_graph::{Net, RiskSet};
pub use own::Own;
pub use sharing::Sharing;
pub use spectrum_map::Occupied;
