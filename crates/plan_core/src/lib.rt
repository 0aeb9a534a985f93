//! One step of the planner over the list of live services: what a command comes to, and the change that it
//! makes. The layer above opens a `Core`, hands it commands, and applies each change once it may stand; or it
//! hands it events that a journal tells, and each is followed where it can be.
#![tactic(auto)]

mod admit;
mod asked_leg;
mod asked_paths;
mod awaited;
mod compacting;
pub mod decision;
mod demand;
mod dispatch;
mod event;
pub mod follow;
mod follow_leg;
mod follow_move;
mod listings;
mod live;
pub mod machine;
mod moves;
mod place;
mod proposal;
mod refusal;
mod routes;
mod told_leg;

pub use decision::Decision;
pub use follow::CannotFollow;
pub use journal_record::Event;
pub use machine::Core;
