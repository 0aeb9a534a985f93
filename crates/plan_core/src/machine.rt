//! The machine: a network, and the live services on it.
ghost use Rattle.std.specs.Prelude.{◌≡◌, ◌≢◌, [], true, false, Some, None, Err, IsTrue, IsOk, IfOk, IfErr, IfSome, OnOk, OnErr, IsErrOf};
ghost use Rattle.eon_model.specs.Events as changes;
ghost use Rattle.eon_model.specs.EventText.{is_event};
ghost use Rattle.eon_model.specs.Replay.{can_follow};
ghost use Rattle.eon_model.specs.Legal.{Legal};
ghost use Rattle.eon_model.specs.NetworkText.{is_setup};
ghost use Rattle.eon_model.specs.CommandText.{is_command};
ghost use Rattle.eon_model.specs.Step.{outcome_of};
ghost use Rattle.eon_model.specs.Answers.{Gives, takes_memory};
ghost use Rattle.command_text.specs.Told.{told};
ghost use Rattle.journal_record.specs.Told.{event_told};
ghost use Rattle.plan_core.specs.Told.{answer_of, event_of, CanBeTold};
ghost use Rattle.plan_core.specs.Waiting.{CanBeHeld};
ghost use Rattle.plan_core.specs.Following.{brings_leg};

use crate::awaited::Awaited;
use crate::compacting::propose;
use crate::decision::Decision;
use crate::follow::{CannotFollow, needed_by};
use crate::live::Live;
use crate::proposal::{Prepared, Proposal};
use command_text::Command;
use journal_record::Event;
use kept_routes::KeptRoutes;
use leg_state::Services;
use net_setup::NetSetup;
use std::alloc::{AllocError, Global};
use std::marker::Model;

/// A network and its live services. A contract sees the setup, the state, and the change that waits: that of the
/// last step that did not want memory, where it answered a change, and it was not applied since. Beside these it keeps
/// routes that were searched for, which no contract sees: they are what a search on the network gives.
#[derive(Drop)]
pub struct Core {
    setup: NetSetup,
    live: Live,
    prepared: Prepared,
    awaited: Awaited,
    kept: KeptRoutes,
    alloc: Global,
}

impl Model for Core {
    ghost use Rattle.std.specs.Prelude.{◌≡◌};
    ghost use Rattle.plan_core.specs.Seen.{CoreSeen, seen_code, IsKept};

    ghost Value = { CoreSeen };

    ghost coded = { seen_code };

    ghost view = { λ c. record { setup = c.setup; state = c.live.services.list; waiting = c.awaited.event } };

    ghost invariant = { λ c. (c.kept ≡ c.setup) × IsKept c.setup c.live.services.list c.live.services.spare c.prepared c.awaited.event };
}

impl Core {
    /// The network without a service. No change waits.
    pub fn open(alloc: Global, setup: NetSetup) -> Result<Core, AllocError>
        requires { IsTrue (is_setup setup) }
        ensures setup { IfOk result (λ c. c.setup ≡ setup) }
        ensures state { IfOk result (λ c. c.state ≡ []) }
        ensures waiting { IfOk result (λ c. c.waiting ≡ None) }
    {
        let kept = KeptRoutes::new(alloc, &setup);
        Ok(Core {
            setup,
            live: Live::new(alloc),
            prepared: Prepared::Nothing,
            awaited: Awaited::none(),
            kept,
            alloc,
        })
    }

    /// The network that it plans on.
    pub fn setup(&self) -> &NetSetup
        ensures setup { result.now ≡ self.now.setup }
        ensures in_range { IsTrue (is_setup self.now.setup) }
    {
        &self.setup
    }

    /// The live services in order of admission.
    pub fn services(&self) -> &Services
        ensures list { result.now.list ≡ self.now.state }
        ensures legal { Legal self.now.setup self.now.state }
    {
        &self.live.services
    }

    // Makes room for the change, if there is one, and keeps what it needs until it is applied.
    fn hold(&mut self, proposal: Proposal) -> Result<Decision, AllocError>
        requires { CanBeHeld self.old.setup self.old.state proposal }
        ensures setup { self.new.setup ≡ self.old.setup }
        ensures state { self.new.state ≡ self.old.state }
        ensures decision { IfOk result (λ d. d ≡ proposal.decision) }
        ensures waiting { IfOk result (λ d. self.new.waiting ≡ event_of d) }
        ensures wanted { IfErr result (λ _. self.new ≡ self.old) }
        ensures no_memory { proposal.prepared ≡ Prepared.Nothing → IsOk result }
    {
        self.live.make_room(&proposal.prepared)?;
        let Proposal { decision, prepared } = proposal;
        self.awaited.note(&decision);
        self.prepared = prepared;
        Ok(decision)
    }

    /// What the command comes to: a reply, or a change that waits to be applied and its reply. The list is as
    /// before. Want of memory leaves all as before, the change that waits too.
    pub fn step(&mut self, c: &Command) -> Result<Decision, AllocError>
        requires in_range { IsTrue (is_command (told c.now)) }
        ensures setup { self.new.setup ≡ self.old.setup }
        ensures state { self.new.state ≡ self.old.state }
        ensures answer { IfOk result (λ d. Gives self.old.setup self.old.state (outcome_of self.old.setup self.old.state (told c.now)) (answer_of d)) }
        ensures waiting { IfOk result (λ d. self.new.waiting ≡ event_of d) }
        ensures wanted { IfErr result (λ _. self.new ≡ self.old) }
        ensures event { IfOk result (λ d. IfSome (event_of d) (λ e. IsTrue (is_event (event_told e)))) }
        ensures can_tell { IfOk result (λ d. CanBeTold self.old.setup self.old.state d) }
        ensures no_memory { takes_memory (told c.now) ≡ false → IsOk result }
    {
        let proposal = propose(
            self.alloc,
            &mut self.kept,
            &self.setup,
            &self.live.services,
            c,
        )?;
        self.hold(proposal)
    }

    /// Makes the change that waits. No memory is taken.
    pub fn apply(&mut self, e: Event)
        requires { self.old.waiting ≡ Some e }
        ensures setup { self.new.setup ≡ self.old.setup }
        ensures state { self.new.state ≡ changes.apply self.old.setup.network self.old.state (event_told e) }
        ensures waiting { self.new.waiting ≡ None }
    {
        let prepared = std::mem::replace(&mut self.prepared, Prepared::Nothing);
        self.awaited = Awaited::none();
        self.live.change(&e, prepared);
    }

    /// Makes the change, exactly where it can follow the state; no change waits then. Else, and at want of memory,
    /// all is as before, the change that waits too.
    pub fn follow(&mut self, e: &Event) -> Result<(), CannotFollow>
        requires { IsTrue (is_event (event_told e.now)) }
        ensures setup { self.new.setup ≡ self.old.setup }
        ensures state { OnOk result (self.new.state ≡ changes.apply self.old.setup.network self.old.state (event_told e.now)) }
        ensures follows { OnOk result (can_follow self.old.setup self.old.state (event_told e.now) ≡ true) }
        ensures waiting { OnOk result (self.new.waiting ≡ None) }
        ensures refused { IsErrOf result CannotFollow.NotNow → can_follow self.old.setup self.old.state (event_told e.now) ≡ false }
        ensures kept { OnErr result (self.new ≡ self.old) }
        ensures no_memory { brings_leg (event_told e.now) ≡ false → result ≢ Err CannotFollow.Memory }
    {
        let needed = needed_by(self.alloc, &self.setup, &self.live.services, e)?;
        let Some(prepared) = needed else {
            return Err(CannotFollow::NotNow);
        };
        self.live.make_room(&prepared)?;
        self.prepared = Prepared::Nothing;
        self.awaited = Awaited::none();
        self.live.change(e, prepared);
        Ok(())
    }
}
