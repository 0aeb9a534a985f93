//! Network texts: what a text says as a setup, where a text that is none is wrong, and the text of a setup. The
//! layers above may use `read_net` with the faults that it tells, `print_net`, and the laws of these texts.
#![tactic(auto)]

mod cut;
mod draft;
pub mod fault;
pub mod fields;
pub mod laws;
mod line_words;
pub mod lines;
mod parts;
mod printing;
pub mod reading;
mod word;

pub use fault::{NetFault, NetRefusal, Why};
pub use fields::Fields;
pub use lines::Lines;
pub use printing::print_net;
pub use reading::read_net;
