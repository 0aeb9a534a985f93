//! What is wrong with a plan.

use eon_base::name::Name;

/// Why a move is bad, in the order in which the causes are tried.
#[derive(Clone, Copy, Debug, PartialEq, Eq)]
pub enum Bad {
    /// Its name is not in the list.
    Unknown,
    /// An earlier move has its name.
    Twice,
    /// Its service does not stand where the move begins.
    From,
    /// The move ends where it begins.
    Same,
    /// The units from the old slot to the new one do not lie in one part of the band.
    Band,
    /// This service, the first in the list, is not clear of these units, with all moves of lower batches at their
    /// targets and the earlier moves of the same batch under way.
    Clash { name: Name },
}

/// The first bad move of a plan.
#[derive(Clone, Copy, Debug, PartialEq, Eq)]
pub struct BadMove {
    /// Its number in the plan, from 1.
    pub at: u16,
    /// The name of its service.
    pub name: Name,
    /// Why it is bad.
    pub bad: Bad,
}
