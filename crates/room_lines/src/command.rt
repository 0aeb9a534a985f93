//! What a line asks for.
use command_text::FibreNames;
use eon_base::name::Name;

/// A question for room: between which nodes, at what rate in Gbit/s, on which fibres, and at what centre in units of 6.25 GHz
/// from 193.1 THz. The list of fibres lies in the line that the question was read from.
#[derive(Debug, Drop)]
pub struct Question<'a> {
    pub src: Name,
    pub dst: Name,
    pub rate: u32,
    pub fibres: FibreNames<'a>,
    pub n: i16,
}

/// What may be asked.
#[derive(Debug, Drop)]
pub enum RoomCommand<'a> {
    /// Which channels must drift so that a block becomes free.
    Room(Question<'a>),
    /// End.
    Quit,
}

/// The line is no command. The first `at` bytes begin one, and no more of them do.
#[derive(Clone, Copy, Debug, PartialEq, Eq)]
pub struct RoomFault {
    pub at: u16,
}
