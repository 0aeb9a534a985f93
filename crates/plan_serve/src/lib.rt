//! The top call of the planner: it takes the words after the program's name, reads the network and the stream of
//! command lines, and writes a reply for each line. The layer above gives it the real files and output, and ends with
//! the code of the status that comes back.
#![tactic(auto)]

mod answering;
mod ask;
mod drive;
mod fault_line;
mod journal;
mod migrate;
mod network;
mod session;
pub mod status;
mod stream;
pub mod top;

pub use status::Status;
pub use top::plan_main;
