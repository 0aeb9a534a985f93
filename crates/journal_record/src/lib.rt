//! The journal's bytes for events, both ways: `write_event` gives an event's bytes, and `read_event` the event
//! of bytes, or their first fault. `need` is what an event takes in the journal.
#![tactic(auto)]

mod buffer;
mod event;
mod fault;
mod fields;
mod reading;
mod writing;

pub use buffer::EventBuf;
pub use eon_base::name::Name;
pub use eon_model::Class;
pub use event::{EnterText, Event, LegText, PathText};
pub use fault::EventFault;
pub use flex_grid::slot::Slot;
pub use leg_state::FibreNumbers;
pub use reading::read_event;
pub use writing::{need, write_event};
