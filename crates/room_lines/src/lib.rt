//! The lines that ask for room: which channels must drift so that a block becomes free. The layer above makes `Rooms` over a legal
//! list of services, and has the lines of a stream answered by it; or it reads a line by `read_room`, asks `Rooms::room`, and gives
//! a reply by `write_room`. The services stay as they are.
#![tactic(auto)]

mod answering;
mod asking;
mod command;
mod names;
mod printing;
mod reading;
mod reply;
mod rooms;
mod session;
mod verb;
mod writing;

pub use command::{Question, RoomCommand, RoomFault};
pub use reading::read_room;
pub use reply::RoomReply;
pub use rooms::Rooms;
pub use writing::write_room;
