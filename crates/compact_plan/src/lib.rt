//! How low every channel can drift, and on what each comes to rest there. The layer above asks `compact` and prints the
//! moves.
#![tactic(auto)]

pub mod answers;
mod block;
pub mod compacting;
mod row;
mod sweep;
mod telling;

pub use answers::{Compact, Move, Moves, Plan, Rest, Targets};
pub use block::path_height;
pub use compacting::compact;
pub use eon_base::name::Name;
pub use flex_grid::band::Band;
pub use leg_state::Services;
