//! Where channels can drift so that a block of spectrum becomes free, with none moving over another. Four sweeps of one kind
//! give the lowest and the highest place of each channel, and its targets downwards and upwards: each goes once over the
//! channels, in the order in which they stand, from the floor of the grid up or from its ceiling down. The layer above asks
//! `room_for`, which tells the moves, or what keeps the block from becoming free.
#![tactic(auto)]

pub mod heights;
pub mod room;
mod settle;
pub mod shifts;
mod sides;
mod standing;
mod sweeps;
pub mod targets;

pub use flex_grid::band::Band;
pub use heights::Side;
pub use leg_state::{Path, Services};
pub use room::{Room, Shifts, room_for};
pub use shifts::Shift;
pub use targets::{Targets, room_targets};
