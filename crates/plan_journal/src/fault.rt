//! Why a call of the journal fails. After `Disk` the disk's count of faults is one higher.

/// Why no fresh journal was made.
#[derive(Clone, Copy, Debug, PartialEq, Eq)]
pub enum InitFault {
    /// The disk has so many bytes already.
    NotEmpty { len: u64 },
    /// A call of the disk failed.
    Disk,
}

/// Why an event was not appended.
#[derive(Clone, Copy, Debug, PartialEq, Eq)]
pub enum AppendFault {
    /// It takes so many bytes, and fewer are left. Nothing was written.
    Full { need: u32, left: u32 },
    /// A call of the disk failed.
    Disk,
}

/// Why a journal is not opened.
#[derive(Clone, Copy, Debug, PartialEq, Eq)]
pub enum OpenFault {
    /// The byte at this offset, which is that of a head, is another one or missing.
    BadHead { at: u64 },
    /// It is bound to a network of another digest.
    Other { kept: [u8; 32], own: [u8; 32] },
    /// A call of the disk failed.
    Disk,
}

/// Why no next event is read.
#[derive(Clone, Copy, Debug, PartialEq, Eq)]
pub enum NextFault {
    /// At this offset stands no gate, or an open one without a whole record that has the next number.
    BadRecord { at: u64 },
    /// A call of the disk failed.
    Disk,
}
