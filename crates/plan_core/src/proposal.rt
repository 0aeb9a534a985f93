//! What a command comes to before it stands: the decision, and what its change needs.
ghost use Rattle.std.specs.Prelude.{◌≡◌, IsTrue};
ghost use Rattle.eon_model.specs.Step as step;
ghost use Rattle.eon_model.specs.Events as events;
ghost use Rattle.eon_model.specs.EventText.{is_event};
ghost use Rattle.reply_text.specs.Replied.{reply_told};
ghost use Rattle.plan_core.specs.Told.{outcome_told};

use crate::decision::Decision;
use crate::event::{enter_text, leg_text};
use eon_base::name::Name;
use eon_model::Class;
use journal_record::Event;
use leg_state::{Leg, Service};
use reply_text::Reply;

/// What a change needs that only memory could give.
#[derive(Drop)]
pub enum Prepared {
    Nothing,
    /// The service that enters.
    Service(Service),
    /// The leg that stands beside the old one.
    Leg(Leg),
}

/// A decision, and what its change needs.
#[derive(Drop)]
pub struct Proposal {
    pub decision: Decision,
    pub prepared: Prepared,
}

/// A reply alone.
pub fn say(reply: Reply) -> Proposal
    ensures decision { result.decision ≡ Decision.Say reply }
    ensures prepared { result.prepared ≡ Prepared.Nothing }
{
    Proposal {
        decision: Decision::Say(reply),
        prepared: Prepared::Nothing,
    }
}

/// The service enters.
pub fn enter(service: Service, reply: Reply) -> Proposal
    requires { IsTrue (is_event (events.Event.Enter (events.enter_text_of service))) }
    ensures decision { outcome_told result.decision ≡ step.Change (events.Event.Enter (events.enter_text_of service)) (reply_told reply) }
    ensures prepared { result.prepared ≡ Prepared.Service service }
{
    Proposal {
        decision: Decision::Change {
            event: Event::Enter {
                service: enter_text(&service),
            },
            reply,
        },
        prepared: Prepared::Service(service),
    }
}

/// The leg stands beside the old one of the service of this name, which is of this class.
pub fn make(name: Name, class: Class, leg: Leg, reply: Reply) -> Proposal
    requires { IsTrue (is_event (events.Event.Make name class (events.leg_text_of leg))) }
    ensures decision { outcome_told result.decision ≡ step.Change (events.Event.Make name class (events.leg_text_of leg)) (reply_told reply) }
    ensures prepared { result.prepared ≡ Prepared.Leg leg }
{
    Proposal {
        decision: Decision::Change {
            event: Event::Make {
                name,
                class,
                leg: leg_text(&leg),
            },
            reply,
        },
        prepared: Prepared::Leg(leg),
    }
}

/// A change that needs nothing.
pub fn change(event: Event, reply: Reply) -> Proposal
    ensures decision { result.decision ≡ Decision.Change event reply }
    ensures prepared { result.prepared ≡ Prepared.Nothing }
{
    Proposal {
        decision: Decision::Change { event, reply },
        prepared: Prepared::Nothing,
    }
}
