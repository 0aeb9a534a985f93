//! The journal on a disk: making a fresh one, opening one that a crash may have left, and appending events. What its bytes
//! stand for is said by `eon_model`, from what these calls say of bytes.
#![tactic(auto)]

mod durable;
mod fault;
mod head;
mod journal;
mod making;
mod opening;
mod place;
mod record;
mod walk;

pub use fault::{AppendFault, InitFault, NextFault, OpenFault};
pub use head::{Head, examine};
pub use journal::Journal;
pub use making::init;
pub use opening::Opening;
pub use place::Place;
pub use walk::Kept;
