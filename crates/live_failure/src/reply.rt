//! What is answered.
use eon_base::name::Name;

/// A service that one group more makes dark, and the first such group by its name.
#[derive(Debug, Drop)]
pub struct Weak {
    /// The name of the service.
    pub name: Name,
    /// The risk number of the group.
    pub group: u8,
}

/// Two different groups by their risk numbers, the lesser name first.
#[derive(Clone, Copy, Debug, PartialEq, Eq)]
pub struct GroupPair {
    pub one: u8,
    pub two: u8,
}

/// Under how many pairs of groups a service is dark, and the first of them by their names.
#[derive(Clone, Copy, Debug, PartialEq, Eq)]
pub struct Audit {
    pub pairs: u32,
    pub first: Option<GroupPair>,
}

/// A reply. Groups are told by their risk numbers; what is said of the services is read from their list when it is
/// printed.
#[derive(Debug, Drop)]
pub enum LiveReply {
    /// The line is no command: its first `at` bytes begin one, and no more of them do.
    Line { at: u16 },
    /// No group, or no service, has this name.
    Unknown { name: Name },
    /// This group has failed already.
    HasFailed { group: u8 },
    /// The group has failed. Told with what becomes of each service whose old leg's working route it hits.
    Failed { group: u8 },
    /// No group has failed.
    Intact,
    /// The group that had failed works again.
    Repaired { group: u8 },
    /// What is lit with this group failed, or with none.
    Lights { failed: Option<u8> },
    /// The services that one group more makes dark, in list order.
    Exposed { weak: Vec<Weak> },
    /// Under how many pairs of groups the service is dark.
    Audit { name: Name, audit: Audit },
    /// There was no memory for the answer.
    Memory,
    /// The run ends.
    Bye,
}
