//! Replies: what the planner says, and the bytes of it. The layers above make a `Reply`, and give it to a sink
//! by `write_reply` or add it to a text by `print_reply`; what it says of a service is read from the list when
//! it is printed.
#![tactic(auto)]

mod drills;
mod fibre_lists;
mod in_memory;
mod legs;
mod listing;
mod plans;
mod printing;
pub mod reply;
mod services;
mod words;
mod writing;

pub use eon_model::Part;
pub use in_memory::print_reply;
pub use reply::Reply;
pub use writing::write_reply;
