//! Changes of the list of services, as the journal keeps them: nodes and fibres by number, no length and no risk.
use eon_base::name::Name;
use eon_model::Class;
use flex_grid::slot::Slot;
use leg_state::FibreNumbers;

/// A path: its fibres by number, and its slot.
#[derive(Drop)]
pub struct PathText {
    pub fibres: FibreNumbers,
    pub slot: Slot,
}

/// A leg that stands still: a working path, and a backup path for a protected service.
#[derive(Drop)]
pub struct LegText {
    pub work: PathText,
    pub back: Option<PathText>,
}

/// A service of one leg, between two nodes by number, at a rate in Gbit/s.
#[derive(Drop)]
pub struct EnterText {
    pub name: Name,
    pub src: u8,
    pub dst: u8,
    pub rate: u32,
    pub class: Class,
    pub leg: LegText,
}

/// A change of the list of services. Centres are in units of 6.25 GHz from 193.1 THz.
#[derive(Drop)]
pub enum Event {
    /// A service goes to the end of the list.
    Enter {
        service: EnterText,
    },
    /// The service of this name goes.
    Leave {
        name: Name,
    },
    /// Its working channel begins to move to this centre.
    Push {
        name: Name,
        to: i16,
    },
    /// Its move ends at the new leg or at the new centre.
    Finish {
        name: Name,
    },
    /// Its move is given up.
    Back {
        name: Name,
    },
    /// It begins to move to this leg.
    Make {
        name: Name,
        class: Class,
        leg: LegText,
    },
    /// Its backup goes to this centre.
    Refit {
        name: Name,
        n: i16,
    },
    /// The journal belongs to the network whose text has this digest.
    Bind {
        digest: [u8; 32],
    },
}
