//! Rows that stand for a list of services: which units are lit, how many shared backups hold each, and how many of them
//! each group calls for. The layers above change them with each change of the list, in place and without memory, and
//! decide by them in place of the list.
#![tactic(auto)]

mod dark;
pub mod laws;
mod light;
mod parts;
pub mod rows;
mod shared;

pub use flex_grid::units::Units;
pub use leg_state::{Class, Leg};
pub use net_setup::NetSetup;
pub use rows::KeptRows;
