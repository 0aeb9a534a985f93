//! What each change of a list of services does to the rows that stand for it. The layer above makes one call for each kind
//! of change, with the service as it is before; the rows then stand for the list after it. No call takes memory.
#![tactic(auto)]

pub mod legs;
pub mod moves;

pub use kept_rows::KeptRows;
pub use leg_state::{Leg, Service};
pub use legs::{enter, leave, make};
pub use moves::{back, finish, push, refit};
