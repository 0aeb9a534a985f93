//! The live services, and the one way in which they change.
ghost use Rattle.std.specs.Prelude.{◌≡◌, ◌≤◌, [], Some, IsOk, OnOk};
ghost use Rattle.eon_model.specs.Legal.{Setup};
ghost use Rattle.eon_model.specs.Network.{Network};
ghost use Rattle.eon_model.specs.Events.{apply};
ghost use Rattle.journal_record.specs.Told.{event_told};
ghost use Rattle.plan_core.specs.Seen.{IsKept};
ghost use Rattle.plan_core.specs.Waiting.{HasRoom, needed};

use crate::proposal::Prepared;
use journal_record::Event;
use leg_state::{Service, Services};
use std::alloc::{AllocError, Global};

/// The live services in order of admission.
#[derive(Drop)]
pub struct Live {
    pub services: Services,
}

// Lets a service go.
fn let_go(_service: Service) {}

impl Live {
    /// No service.
    pub fn new(alloc: Global) -> Live
        ensures { result.services.list ≡ [] }
    {
        Live {
            services: Services::new(alloc),
        }
    }

    /// Makes room for what enters. Want of memory leaves the list as it was.
    pub fn make_room(&mut self, prepared: &Prepared) -> Result<(), AllocError>
        ensures list { self.new.services.list ≡ self.old.services.list }
        ensures kept { self.old.services.spare ≤ self.new.services.spare }
        ensures room { OnOk result (HasRoom self.new.services.spare prepared.now) }
        ensures no_memory { prepared.now ≡ Prepared.Nothing → IsOk result }
    {
        match prepared {
            Prepared::Service(_) => self.services.reserve(),
            Prepared::Leg(_) | Prepared::Nothing => Ok(()),
        }
    }

    /// Makes the change, for which all that it needs is there. No memory is taken.
    pub fn change(&mut self, event: &Event, prepared: Prepared)
        requires { (setup : Setup) × IsKept setup self.old.services.list self.old.services.spare prepared (Some event.now) }
        ensures { (net : Network) → prepared ≡ needed net (event_told event.now) → self.new.services.list ≡ apply net self.old.services.list (event_told event.now) }
    {
        match event {
            Event::Enter { .. } => match prepared {
                Prepared::Service(service) => self.services.enter(service),
                _ => unreachable!(),
            },
            Event::Leave { name } => let_go(self.services.leave(name)),
            Event::Push { name, to } => self.services.set_to(name, *to),
            Event::Finish { name } => self.services.end_move(name),
            Event::Back { name } => self.services.undo_move(name),
            Event::Make { name, .. } => match prepared {
                Prepared::Leg(leg) => self.services.add_leg(name, leg),
                _ => unreachable!(),
            },
            Event::Refit { name, n } => self.services.set_back(name, *n),
            Event::Bind { .. } => {}
        }
    }
}
