//! What the commands that move a channel come to: `push` lets it drift, `finish` ends a move at its new place, `back`
//! at its old one. They decide and change nothing, and take no memory; the layer above makes the change.
#![tactic(auto)]

pub mod answers;
pub mod ending;
pub mod pushing;

pub use answers::{End, Push};
pub use ending::{back, finish};
pub use eon_base::name::Name;
pub use flex_grid::band::Band;
pub use leg_state::Services;
pub use pushing::push;
