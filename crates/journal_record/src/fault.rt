//! Why bytes are no event.

/// The first fault of bytes that are no event.
#[derive(Clone, Copy, Debug, PartialEq, Eq)]
pub enum EventFault {
    /// The bytes end before a field does.
    Short,
    /// The first byte is none of 1 to 8.
    Kind,
    /// The field that begins at this offset is whole, and out of its range or no name.
    Field { at: u16 },
    /// Bytes follow the last field.
    Rest,
}
