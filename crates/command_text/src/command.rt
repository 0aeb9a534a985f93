//! What a command line asks for.
use crate::fibre_names::FibreNames;
use eon_base::name::Name;
use eon_model::Class;

/// A backup path as it is written: its fibres, and a centre in units of 6.25 GHz.
#[derive(Debug, Drop)]
pub struct BackWords<'a> {
    pub fibres: FibreNames<'a>,
    pub n: i16,
}

/// A command. Rates are in Gbit/s, centres in units of 6.25 GHz from 193.1 THz. Lists of fibres lie in the
/// line that the command was read from.
#[derive(Debug, Drop)]
pub enum Command<'a> {
    /// Light a service at given places.
    Place {
        name: Name,
        src: Name,
        dst: Name,
        rate: u32,
        class: Class,
        work: FibreNames<'a>,
        work_n: i16,
        /// The backup path, exactly where the class is protected.
        back: Option<BackWords<'a>>,
    },
    /// Find places for a service, and light it.
    Admit {
        name: Name,
        src: Name,
        dst: Name,
        rate: u32,
        class: Class,
    },
    /// Take a service away.
    Release {
        name: Name,
    },
    /// Let a channel drift to a centre.
    Push {
        name: Name,
        n: i16,
    },
    /// Make new paths beside the old ones, off a fibre if one is named.
    Make {
        name: Name,
        avoid: Option<Name>,
    },
    /// End what moves, at its new place.
    Finish {
        name: Name,
    },
    /// End what moves, at its old place.
    Back {
        name: Name,
    },
    /// Find the lowest place of a dark backup.
    Refit {
        name: Name,
    },
    /// Plan how all channels come down.
    Compact,
    /// List what fails with a group or a fibre.
    Drill {
        group: Name,
    },
    /// List the first routes between two nodes.
    Routes {
        src: Name,
        dst: Name,
    },
    /// Show a service.
    Show {
        name: Name,
    },
    /// Show all services.
    List,
    /// Show what stands on a fibre.
    Map {
        fibre: Name,
    },
    /// Count services and units.
    Stats,
    /// Report on all services.
    Report,
    /// End.
    Quit,
}

/// The line is no command. The first `at` bytes begin one, and no more of them do.
#[derive(Clone, Copy, Debug, PartialEq, Eq)]
pub struct LineFault {
    pub at: u16,
}
