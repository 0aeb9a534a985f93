//! A failure in the live state: a group fails or works again, and what is then lit, dark, exposed and audited. The layer
//! above makes a `Live` over a legal list of services, and has it answer the lines of a stream; or it reads a line by
//! `read_live`, asks the calls of `Live`, and gives a reply by `write_live`. The services stay as they are.
#![tactic(auto)]

mod answering;
mod auditing;
mod command;
mod dark;
mod exposing;
mod fates;
mod groups;
mod lighting;
mod lines;
mod live_state;
mod order;
mod part;
mod paths;
mod printing;
mod reading;
mod reply;
mod verb;
mod writing;

pub use command::{LiveCommand, LiveFault};
pub use live_state::Live;
pub use reading::read_live;
pub use reply::{Audit, GroupPair, LiveReply, Weak};
pub use writing::write_live;
