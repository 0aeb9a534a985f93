//! What a line asks for.
use eon_base::name::Name;

/// A command while groups fail.
#[derive(Debug, Drop)]
pub enum LiveCommand {
    /// The group or the fibre of this name fails.
    Fail { group: Name },
    /// The group that failed works again.
    Repair,
    /// List the paths that are lit.
    Lights,
    /// List the services that one group more makes dark.
    Exposed,
    /// Count the pairs of groups that make the service dark.
    Audit { name: Name },
    /// End.
    Quit,
}

/// The line is no command. The first `at` bytes begin one, and no more of them do.
#[derive(Clone, Copy, Debug, PartialEq, Eq)]
pub struct LiveFault {
    pub at: u16,
}
