//! Where changes are kept before they are made. A log says whether an event could be kept, and how many bytes are left for more;
//! what it is kept in is its own affair. `NoLog` keeps nothing and is never full; a journal that was made ready appends to its disk.
#![tactic(auto)]

mod journal_log;
pub mod laws;
mod log;
mod no_log;
mod opening;

pub use journal_log::journal_at;
pub use journal_record::Event;
pub use log::{Log, Unkept};
pub use no_log::NoLog;
pub use opening::open_log;
pub use plan_journal::{Journal, Place};
