//! What the planner says.
use compact_plan::Plan;
use eon_base::name::Name;
use eon_model::Part;
use failure_drill::DrillList;
use net_graph::RouteList;
use plan_report::{Stats, Text};

/// A reply. Centres are in units of 6.25 GHz from 193.1 THz. A leg that is told is read from the list of
/// services, as it is after the change.
#[derive(Drop)]
pub enum Reply {
    /// The line is no command: its first `at` bytes begin one, and no more of them do.
    Line { at: u16 },
    /// Nothing of the kind that is asked for has this name.
    Unknown { name: Name },
    /// A live service has this name.
    Taken { name: Name },
    /// The service moves.
    Busy { name: Name },
    /// The service does not move.
    Idle { name: Name },
    /// The channel stands at this centre.
    Same { name: Name },
    /// The service has no backup.
    Bare { name: Name },
    /// The backup of the service is always lit, and stays where it is.
    Dual { name: Name },
    /// The first service that is in the way.
    Clash { name: Name },
    /// The least group that the working and the backup route share.
    Risk { name: Name },
    /// The fibres are no route between the ends.
    Path { part: Part },
    /// No format reaches so far.
    Reach { part: Part },
    /// The slot does not lie in the band.
    Band { part: Part },
    /// There are as many services as the network allows.
    FullServices,
    /// There is no candidate.
    NoRoute,
    /// There are so many candidates, and none fits.
    Blocked { pairs: u16 },
    /// The change needs more bytes than the journal has left.
    FullJournal { need: u32, left: u32 },
    /// There was no memory for the answer, and nothing changed.
    Memory,
    /// The service was placed by hand.
    Placed { name: Name },
    /// The service was admitted.
    Admitted { name: Name },
    /// The service has a new leg beside the old one.
    Made { name: Name },
    /// The service is gone.
    Released { name: Name },
    /// The channel drifts from a centre to another.
    Pushed { name: Name, from: i16, to: i16 },
    /// The move ended at its new place.
    Finished { name: Name },
    /// The move was given up.
    Backed { name: Name },
    /// The backup stands at another centre than before, or at the same.
    Refitted { name: Name, from: i16, to: i16 },
    /// All that is told of a service.
    Show { name: Name },
    /// All services.
    List,
    /// Routes in order.
    Routes { routes: RouteList },
    /// The legs that the failure of this group takes down, each with the backup that takes over.
    Drill { group: Name, hits: DrillList },
    /// The moves that bring every channel to its lowest place, in batches.
    Plan { plan: Plan },
    /// The map of a fibre, with its line ends.
    Map { text: Text },
    /// The totals.
    Stats { stats: Stats },
    /// The report, without its line end.
    Report { text: Text },
    /// The run ends.
    Bye,
}
