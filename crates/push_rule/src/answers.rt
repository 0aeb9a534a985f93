//! What is decided of a move.

use eon_base::name::Name;

/// What becomes of a push. Centres are in units of 6.25 GHz.
#[derive(Clone, Copy, Debug, PartialEq, Eq)]
pub enum Push {
    /// No live service has the name.
    Unknown,
    /// The service moves already.
    Busy,
    /// The channel stands at this centre.
    Same,
    /// The units from the old slot to the new one do not lie in one part of the band.
    Band,
    /// The first other service in order of admission with a leg that is not clear with the leg as it drifts.
    Clash { name: Name },
    /// The channel drifts from a centre to another.
    Done { from: i16, to: i16 },
}

/// What becomes of the end of a move.
#[derive(Clone, Copy, Debug, PartialEq, Eq)]
pub enum End {
    /// No live service has the name.
    Unknown,
    /// The service is at rest.
    Idle,
    /// The move ends.
    Done,
}
