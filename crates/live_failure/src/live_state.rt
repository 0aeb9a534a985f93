//! A live state, and what is asked of it while groups fail.
ghost use Rattle.std.specs.Prelude.{◌≡◌, ◌≤◌, length, None, IsTrue, IfOk};
ghost use Rattle.std.specs.Option.{option_to_list};
ghost use Rattle.eon_model.specs.Legal.{Legal};
ghost use Rattle.eon_model.specs.LiveCommands as asked;
ghost use Rattle.eon_model.specs.LiveFailure as model;
ghost use Rattle.eon_model.specs.LiveReplies as said;
ghost use Rattle.eon_model.specs.LiveStep as step;
ghost use Rattle.eon_model.specs.LiveStep.{live_answer};
ghost use Rattle.eon_model.specs.Network.{risk_number_of};
ghost use Rattle.eon_model.specs.NetworkText.{is_setup};
ghost use Rattle.eon_model.specs.Services.{State, service_of};
ghost use Rattle.live_failure.specs.Answering.{Does, answer_told};
ghost use Rattle.live_failure.specs.Replied.{reply_told};

use crate::auditing::audit;
use crate::exposing::exposed;
use crate::order::{Groups, groups_in_order};
use crate::reply::LiveReply;
use eon_base::name::Name;
use leg_state::Services;
use net_setup::NetSetup;
use std::alloc::{AllocError, Global};
use std::marker::Model;

/// A network and the services that are live on it, with the group that has failed, one at most. The services stay as
/// they are. A contract sees the setup, the list and the group.
#[derive(Drop)]
pub struct Live<'a> {
    setup: &'a NetSetup,
    services: &'a Services,
    order: Groups,
    failed: Option<u8>,
    alloc: Global,
}

impl<'a> Model for Live<'a> {
    ghost use Rattle.live_failure.specs.Seen.{LiveSeen, seen_code, IsKept};

    ghost Value = { LiveSeen };

    ghost coded = { seen_code };

    ghost view = { λ l. record { setup = l.setup.now; state = l.services.now.list; failed = l.failed } };

    ghost invariant = { λ l. IsKept l.setup.now l.services.now.list l.order.items };
}

// The number of the group of this name.
fn group_of(setup: &NetSetup, name: &Name) -> Option<u8>
    requires { IsTrue (is_setup setup.now) }
    ensures { result ≡ risk_number_of setup.now.network name.now }
{
    match setup.net.risk_of(name) {
        Some(group) => Some(group as u8),
        None => None,
    }
}

// The group of this name fails, where none has failed.
fn fail_group(setup: &NetSetup, failed: &mut Option<u8>, name: &Name) -> LiveReply
    requires { IsTrue (is_setup setup.now) }
    ensures { (state : State) → answer_told state result failed.new ≡ live_answer setup.now.network state failed.old (asked.LiveCommand.Fail name.now) }
{
    match group_of(setup, name) {
        Some(group) => fail_numbered(failed, group),
        None => LiveReply::Unknown { name: *name },
    }
}

// The group of this number fails, where none has failed.
fn fail_numbered(failed: &mut Option<u8>, group: u8) -> LiveReply
    ensures { (state : State) → answer_told state result failed.new ≡ step.fail_group state failed.old group }
{
    match *failed {
        Some(before) => LiveReply::HasFailed { group: before },
        None => {
            *failed = Some(group);
            LiveReply::Failed { group }
        }
    }
}

// The group that has failed works again.
fn repair_group(failed: &mut Option<u8>) -> LiveReply
    ensures { (state : State) → answer_told state result failed.new ≡ step.repair failed.old }
{
    match failed.take() {
        Some(group) => LiveReply::Repaired { group },
        None => LiveReply::Intact,
    }
}

// The services that one group more makes dark.
fn exposed_reply(
    alloc: Global,
    setup: &NetSetup,
    services: &Services,
    order: &[u8],
    failed: Option<u8>,
) -> Result<LiveReply, AllocError>
    requires legal { Legal setup.now services.now.list }
    requires order { order.now ≡ model.groups_in_order setup.now.network }
    ensures { IfOk result (λ r. reply_told services.now.list r ≡ said.LiveReply.Exposed (model.exposed setup.now.network services.now.list (option_to_list failed))) }
{
    let weak = exposed(alloc, services, order, failed)?;
    Ok(LiveReply::Exposed { weak })
}

// Under how many pairs of groups the service of this name is dark.
fn audit_reply(setup: &NetSetup, services: &Services, order: &[u8], name: &Name) -> LiveReply
    requires legal { Legal setup.now services.now.list }
    requires order { order.now ≡ model.groups_in_order setup.now.network }
    requires few { length order.now ≤ 256 }
    ensures { reply_told services.now.list result ≡ step.audit_reply setup.now.network services.now.list name.now (service_of services.now.list name.now) }
{
    match services.find(name) {
        Some(own) => LiveReply::Audit {
            name: *name,
            audit: audit(services, order, own),
        },
        None => LiveReply::Unknown { name: *name },
    }
}

impl<'a> Live<'a> {
    /// These services, which are legal on the network. No group has failed.
    pub fn over(alloc: Global, setup: &'a NetSetup, services: &'a Services) -> Live<'a>
        requires in_range { IsTrue (is_setup setup.now) }
        requires legal { Legal setup.now services.now.list }
        ensures setup { result.setup ≡ setup.now }
        ensures state { result.state ≡ services.now.list }
        ensures failed { result.failed ≡ None }
    {
        Live {
            setup,
            services,
            order: groups_in_order(&setup.net),
            failed: None,
            alloc,
        }
    }

    /// The group of this name fails: `Failed`, `HasFailed` where some group has failed already, `Unknown` where no group
    /// has the name.
    pub fn fail(&mut self, group: &Name) -> LiveReply
        ensures { Does self.old self.new (asked.LiveCommand.Fail group.now) result }
    {
        fail_group(self.setup, &mut self.failed, group)
    }

    /// The group that has failed works again: `Repaired`, or `Intact` where none has failed.
    pub fn repair(&mut self) -> LiveReply
        ensures { Does self.old self.new asked.LiveCommand.Repair result }
    {
        repair_group(&mut self.failed)
    }

    /// What is lit.
    pub fn lights(&self) -> LiveReply
        ensures { Does self.now self.now asked.LiveCommand.Lights result }
    {
        LiveReply::Lights {
            failed: self.failed,
        }
    }

    /// The services that are not dark and that one group more makes dark, each with the first such group by its name.
    /// Want of memory is the only failure.
    pub fn exposed(&self) -> Result<LiveReply, AllocError>
        ensures { IfOk result (Does self.now self.now asked.LiveCommand.Exposed) }
    {
        exposed_reply(
            self.alloc,
            self.setup,
            self.services,
            self.order.as_slice(),
            self.failed,
        )
    }

    /// Under how many pairs of groups the service of this name is dark, whichever group has failed, and the first such
    /// pair by their names; `Unknown` where no service has the name. It takes no memory.
    pub fn audit(&self, name: &Name) -> LiveReply
        ensures { Does self.now self.now (asked.LiveCommand.Audit name.now) result }
    {
        audit_reply(self.setup, self.services, self.order.as_slice(), name)
    }

    /// The network.
    pub(crate) fn setup(&self) -> &'a NetSetup
        ensures setup { result.now ≡ self.now.setup }
        ensures in_range { IsTrue (is_setup self.now.setup) }
    {
        self.setup
    }

    /// The services.
    pub(crate) fn services(&self) -> &'a Services
        ensures state { result.now.list ≡ self.now.state }
        ensures legal { Legal self.now.setup self.now.state }
    {
        self.services
    }
}
