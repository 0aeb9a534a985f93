//! The change that waits, kept for contracts alone.
ghost use Rattle.std.specs.Prelude.{◌≡◌, Option, None};
ghost use Rattle.std.specs.Borrow.{ftrue};
ghost use Rattle.std.specs.Coded.{coded_option};
ghost use Rattle.journal_record.specs.contracts.event.Event as event_contracts;
ghost use Rattle.journal_record.specs.declared.event.Event.{Event};
ghost use Rattle.plan_core.specs.Told.{event_of};

use crate::decision::Decision;
use std::marker::Model;

/// The change that was decided and not made since. It takes no memory: only clauses see it.
#[derive(Drop)]
pub struct Awaited {
    pub ghost event: { Option Event } by { coded_option event_contracts.the_row.coded },
}

impl Model for Awaited {
    ghost also_owns = { λ _. ftrue };
}

impl Awaited {
    /// No change.
    pub fn none() -> Awaited
        ensures { result.event ≡ None }
    {
        Awaited {}
    }

    /// The change of this decision, if it has one.
    pub fn note(&mut self, _decision: &Decision)
        ensures { self.new.event ≡ event_of _decision.now }
    {}
}
