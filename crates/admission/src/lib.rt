//! First fit: the first placement of a demand among its candidates, beside the services that are there. The
//! layer above asks `first` and cites the laws of `laws`, which say that its answer is the planner's; `leg_at` makes the
//! leg of what was found.
#![tactic(auto)]

pub mod laws;
pub mod leg_placed;
pub mod placing;
mod row;
mod search;
mod taken;

pub use flex_grid::band::Band;
pub use leg_placed::leg_at;
pub use leg_state::{Class, Leg, Name, Pair, Services, Spare};
pub use placing::{Admit, Found, first};
