//! What is decided of a second leg and of a backup.

use eon_base::name::Name;
use eon_model::Class;
use leg_state::Leg;

/// What becomes of a make.
#[derive(Drop)]
pub enum Make {
    /// No live service, or no fibre to avoid, has this name.
    Unknown { name: Name },
    /// The service moves already.
    Busy,
    /// There is no candidate for a second leg.
    NoRoute,
    /// There are so many candidates, and none fits.
    Blocked { pairs: u16 },
    /// The second leg of the service, which is of this class. It stands still.
    Started { class: Class, leg: Leg },
}

/// What becomes of a refit. Centres are in units of 6.25 GHz.
#[derive(Clone, Copy, Debug, PartialEq, Eq)]
pub enum Refit {
    /// No live service has the name.
    Unknown,
    /// The service moves.
    Busy,
    /// The service has no backup.
    Bare,
    /// The backup is always lit, and stays where it is.
    Dual,
    /// The backup goes from a centre to the least one, which may be the same.
    Done { from: i16, to: i16 },
}
