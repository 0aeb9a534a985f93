//! The disk under a journal: the traits `Disk` and `Deck`, whose clauses say what a crash may leave, a disk held in memory that
//! can crash, and a file of the machine.
#![tactic(auto)]

pub mod disk;
pub mod disk_in_memory;
mod medium;
mod moments;
pub mod real_file;

pub use disk::{Deck, Disk, DiskFailed};
pub use disk_in_memory::{Fill, MemDisk};
pub use real_file::FileDeck;
