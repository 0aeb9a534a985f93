//! The planner answers command lines over a log: each change is kept in the log before it is made, and before it is kept, all
//! replies that are held back are given. The layer above opens a `Planner` over a machine and a log, and hands it to a session
//! over a stream of lines.
#![tactic(auto)]

pub mod answering;
mod deciding;
pub mod giving;
mod keeping;

pub use answering::Planner;
pub use giving::Pace;
