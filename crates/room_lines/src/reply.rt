//! What is answered.
use eon_base::name::Name;
use make_room::Shifts;

/// A reply.
#[derive(Drop)]
pub enum RoomReply {
    /// The line is no command: its first `at` bytes begin one, and no more of them do.
    Line { at: u16 },
    /// No node, or no fibre, has this name.
    Unknown { name: Name },
    /// The fibres are no route between the ends.
    Path,
    /// No format reaches so far.
    Reach,
    /// The block does not lie in the band.
    Band,
    /// This service moves.
    Busy { name: Name },
    /// The backup of this service lies over the block.
    Over { name: Name },
    /// The channel of this service can be neither below nor above the block.
    At { name: Name },
    /// The moves by which the block becomes free.
    Moves(Shifts),
    /// There was no memory for the answer.
    Memory,
    /// The run ends.
    Bye,
}
