//! Why a journal does not replay.

/// What is wrong with a journal that is refused.
#[derive(Clone, Copy, Debug, PartialEq, Eq)]
pub enum JournalWhy {
    /// Its head.
    Head,
    /// A record.
    Record,
    /// An event, which cannot follow those before it.
    Event,
}

/// Why a journal does not replay. After `Disk` the disk's count of faults is one higher.
#[derive(Clone, Copy, Debug, PartialEq, Eq)]
pub enum ReplayFault {
    /// It is refused at this offset.
    Refused { at: u64, why: JournalWhy },
    /// It is bound to a network of another digest.
    Other { kept: [u8; 32], own: [u8; 32] },
    /// A call of the disk failed.
    Disk,
    /// Memory is wanting.
    Memory,
}
