//! What the commands that move a whole leg or a dark backup come to: `make` finds the second leg of a service, and
//! `refit` the lowest place of its backup. They decide and change nothing; the layer above makes the change.
#![tactic(auto)]

pub mod answers;
pub mod making;
pub mod refitting;

pub use answers::{Make, Refit};
pub use eon_base::name::Name;
pub use flex_grid::band::Band;
pub use kept_routes::KeptRoutes;
pub use leg_state::{Class, Leg, Services};
pub use making::make;
pub use net_setup::NetSetup;
pub use refitting::refit;
