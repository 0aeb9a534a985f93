//! The events of a journal, followed one after another from a network without a service on. The layer above opens the
//! machine, and has the state that the journal stands for, or why there is none.
#![tactic(auto)]

mod fault;
mod following;
mod replaying;

pub use eon_disk::Disk;
pub use fault::{JournalWhy, ReplayFault};
pub use following::follow_all;
pub use plan_core::Core;
pub use plan_journal::Opening;
pub use replaying::replay;
