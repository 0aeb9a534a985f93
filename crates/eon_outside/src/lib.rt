//! What the planner reads from and writes to: the traits `Shelf` and `Sink`, both held in memory for tests and over
//! the real files and standard output, and a sink that holds bytes back for another. The layer above works over the traits,
//! whose clauses say what was read, opened and given where an object tells it, and count the calls that failed.
#![tactic(auto)]

pub mod buffered;
pub mod call_plan;
pub mod files_in_memory;
pub mod opened_names;
pub mod output_in_memory;
pub mod reading;
pub mod real_files;
pub mod real_output;
pub mod whole_file;
pub mod writing;

pub use buffered::{Buffered, Start};
pub use files_in_memory::MemShelf;
pub use output_in_memory::MemSink;
pub use reading::{Failed, Shelf};
pub use real_files::FileShelf;
pub use real_output::StdoutSink;
pub use whole_file::{ReadEnd, ReadFault, read_up_to};
pub use writing::{Sink, write_all};
