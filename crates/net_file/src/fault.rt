//! Why a text is no network text.

/// Why a line is wrong. Where several causes hold, the first in this order is told.
#[derive(Clone, Copy, Debug, PartialEq, Eq)]
pub enum Why {
    /// A byte stands behind the line `end`.
    Rest,
    /// The text ends before the byte 10 of this line.
    Short,
    /// The first field is no word that may stand here.
    Word,
    /// There are too few or too many fields, or one is not spelled as it has to be.
    Form,
    /// A number is out of its range, or the ends of the band do not ascend or have more than 1,024 units.
    Range,
    /// The kind has as many lines as it may have already: 64 formats or nodes, 128 fibres or groups.
    Many,
    /// A node, fibre or group is not above the last of its kind, or a group's fibres do not ascend.
    Order,
    /// A format has this name already, or a group has the name of a fibre.
    Twice,
    /// An end is no node, or a member is no fibre.
    Unknown,
    /// Both ends of a fibre are one node.
    SelfEnd,
    /// A fibre would be in a ninth named group.
    Groups,
}

/// The first line that is wrong, and why.
#[derive(Clone, Copy, Debug, PartialEq, Eq)]
pub struct NetFault {
    /// Its number, counted from 1.
    pub line: u32,
    /// The first cause that holds.
    pub why: Why,
}

/// Why no network was read.
#[derive(Clone, Copy, Debug, PartialEq, Eq)]
pub enum NetRefusal {
    /// The text is no network text.
    Fault(NetFault),
    /// There was no memory for it.
    Memory,
}

/// Why a line was not taken.
#[derive(Clone, Copy, Debug, PartialEq, Eq)]
pub(crate) enum LineFault {
    Cause(Why),
    Memory,
}
