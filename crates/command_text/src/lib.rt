//! Command lines. Reading a line gives its command, or the place from which on no line of the grammar goes
//! so; printing a command gives its one line. A layer above uses `Command`, `read_command` and
//! `print_command`, and the names of a fibre list by `FibreNames`. A crate with lines of its own reads them by
//! `after` and `Fields`.
#![tactic(auto)]

mod command;
mod fibre_names;
mod fields;
pub mod laws;
mod part;
mod printing;
mod reading;
mod verb;

pub use command::{BackWords, Command, LineFault};
pub use eon_model::Class;
pub use fibre_names::{FibreNames, FibreWalk};
pub use fields::Fields;
pub use part::{Stuck, after};
pub use printing::print_command;
pub use reading::read_command;
