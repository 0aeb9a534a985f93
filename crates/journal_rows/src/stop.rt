//! Why the cases end early.

use std::alloc::AllocError;
use std::io;

/// Why the cases were not all tried.
#[derive(Clone, Copy, Debug, PartialEq, Eq)]
pub(crate) enum Stop {
    /// Memory is wanting.
    Memory,
    /// What came out could not be printed.
    Output,
    /// The bytes of an event here are none.
    Event,
}

impl From<AllocError> for Stop {
    fn from(_error: AllocError) -> Stop {
        Stop::Memory
    }
}

impl From<io::Error> for Stop {
    fn from(_error: io::Error) -> Stop {
        Stop::Output
    }
}
