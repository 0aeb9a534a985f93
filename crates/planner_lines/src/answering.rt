//! The planner answers lines.
ghost use Rattle.std.specs.Prelude.{◌≡◌, ℕ, List, Some, IfSome, IsTrue, OnOk};
ghost use Rattle.eon_model.specs.Answers.{Answer};
ghost use Rattle.eon_model.specs.EventText.{is_event};
ghost use Rattle.eon_model.specs.Run.{Situation, situation};
ghost use Rattle.eon_outside.specs.Held.{given_since};
ghost use Rattle.journal_record.specs.Told.{event_told};
ghost use Rattle.line_session.specs.Answering.{StandsBehind};
ghost use Rattle.plan_core.specs.Told.{event_of};
ghost use Rattle.planner_lines.specs.Pacing.{gives_first};
ghost use Rattle.planner_lines.specs.Answering.{Setting as PlannerSetting, answering, WentBy, StandsWell, IsReady};
ghost use Rattle.planner_lines.specs.AnsweringLaws.{none_went, more_went, lawful_when};
ghost use Rattle.planner_lines.specs.Deciding.{Decided};
ghost use Rattle.planner_lines.specs.Settling.{Settles};

use crate::deciding::{decide, flow_behind};
use crate::giving::{Pace, give_first, give_reply};
use crate::keeping::make;
use change_log::Log;
use eon_outside::{Failed, Sink};
use line_session::{Answerer, Flow, Stopped};
use plan_core::{Core, Decision};
use reply_text::Reply;

/// A machine, and the log in which its changes are kept before they are made. Where the replies are given in large pieces the
/// log counts no bytes.
#[derive(Drop)]
pub struct Planner<'c, 'l, L: Log> {
    pub core: &'c mut Core,
    pub log: &'l mut L,
    pub pace: Pace,
}

impl<'c, 'l, L: Log> Planner<'c, 'l, L> {
    // Carries out what was decided, and tells the reply that is to be given.
    fn settle<K: Sink>(
        &mut self,
        decision: Decision,
        out: &mut K,
        held: &mut Vec<u8>,
    ) -> Result<Reply, Stopped>
        requires waits { IfSome (event_of decision) (λ e. self.old.core.now.waiting ≡ Some e) }
        requires event { IfSome (event_of decision) (λ e. IsTrue (is_event (event_told e))) }
        requires ready { IsReady self.old.core.now.setup (situation self.old.core.now.state (L.left self.old.log.now)) (gives_first self.old.pace) (L.can_keep self.old.log.now) }
        ensures pace { self.new.pace ≡ self.old.pace }
        ensures core { self.new.core.ghost_name ≡ self.old.core.ghost_name }
        ensures log { self.new.log.ghost_name ≡ self.old.log.ghost_name }
        ensures setup { self.new.core.now.setup ≡ self.old.core.now.setup }
        ensures settled { (line : List ℕ) → Decided self.old.core.now.setup self.old.core.now.state line decision
            → Settles self.old.core.now.setup (gives_first self.old.pace) (L.keeps self.old.log.now self.new.log.now)
            (situation self.old.core.now.state (L.left self.old.log.now)) (situation self.new.core.now.state (L.left self.new.log.now)) line
            (given_since (K.given out.old) (K.given out.old) held.old.items)
            (given_since (K.given out.old) (K.given out.new) held.new.items) (K.given out.new) result }
        ensures open { OnOk result (L.can_keep self.new.log.now) }
        ensures stands { StandsBehind result (K.standing out.old) (K.standing out.new) }
    {
        match decision {
            Decision::Say(reply) => Ok(reply),
            Decision::Change { event, reply } => match give_first(self.pace, out, held) {
                Ok(()) => make(self.core, self.log, event, reply),
                Err(Failed) => Err(Stopped::Output),
            },
        }
    }
}

impl<'c, 'l, L: Log> Answerer for Planner<'c, 'l, L> {
    ghost Setting = { PlannerSetting };

    ghost Place = { Situation };

    ghost Said = { Answer };

    ghost by = { answering };

    ghost well = { StandsWell };

    ghost setting = { λ p. record { setup = p.core.now.setup; acknowledges = gives_first p.pace; core = p.core.ghost_name; log = p.log.ghost_name } };

    ghost place = { λ p. situation p.core.now.state (L.left p.log.now) };

    ghost ready = { λ p. IsReady p.core.now.setup (situation p.core.now.state (L.left p.log.now)) (gives_first p.pace) (L.can_keep p.log.now) };

    ghost went = { λ old new. WentBy (L.keeps old.log.now new.log.now) };

    fn answer<K: Sink>(
        &mut self,
        line: &[u8],
        out: &mut K,
        held: &mut Vec<u8>,
    ) -> Result<Flow, Stopped> {
        let decision = decide(self.core, line);
        let reply = match self.settle(decision, out, held) {
            Ok(reply) => reply,
            Err(stopped) => return Err(stopped),
        };
        match give_reply(&reply, self.core, out, held) {
            Ok(()) => Ok(flow_behind(line)),
            Err(Failed) => Err(Stopped::Output),
        }
    }

    ghost went_none = { λ it. none_went L.keeps L.keeps_none it.log.now };

    ghost went_more = { λ before here now first more next one two. more_went L.keeps L.keeps_more before.log.now here.log.now now.log.now first more next one two };

    ghost lawful = { λ it ready. lawful_when it.core.now.setup (gives_first it.pace) it.core.ghost_name it.log.ghost_name (situation it.core.now.state (L.left it.log.now)) (L.can_keep it.log.now) ready };
}
