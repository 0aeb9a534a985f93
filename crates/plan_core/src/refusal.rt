//! Why a new service is refused before its paths are looked at.
ghost use Rattle.std.specs.Prelude.{◌≡◌, ◌∷◌, [], not, find, length, nat_le, is_some};
ghost use Rattle.std.specs.Option.{option_map};
ghost use Rattle.eon_model.specs.Services.{service_of};
ghost use Rattle.eon_model.specs.Step.{is_node, is_fibre};
ghost use Rattle.command_text.specs.Told.{told_backs};
ghost use Rattle.reply_text.specs.Replied.{reply_told};
ghost use Rattle.plan_core.specs.Placing as placing;

use crate::demand::Demand;
use command_text::{BackWords, FibreNames};
use eon_base::name::Name;
use leg_state::Services;
use net_graph::Net;
use net_setup::NetSetup;
use reply_text::Reply;

/// The first of the two ends that is no node.
pub fn unknown_end(net: &Net, src: &Name, dst: &Name) -> Option<Name>
    ensures { result ≡ find (λ name. not (is_node net.now name)) (src.now ∷ dst.now ∷ []) }
{
    if net.node_of(src).is_none() {
        return Some(*src);
    }
    if net.node_of(dst).is_none() {
        return Some(*dst);
    }
    None
}

// The first of the names that is no fibre.
fn unknown_fibre(net: &Net, names: &FibreNames) -> Option<Name>
    ensures { result ≡ find (λ name. not (is_fibre net.now name)) names.now }
{
    names.iter().find(|name| net.fibre_of(name).is_none())
}

// The first name that is no fibre, of the working path and then of the backup path.
fn unknown_written(net: &Net, work: &FibreNames, back: &Option<BackWords>) -> Option<Name>
    ensures { result ≡ find (λ name. not (is_fibre net.now name)) (placing.fibres_written work.now (told_backs back.now)) }
{
    if let Some(name) = unknown_fibre(net, work) {
        return Some(name);
    }
    match back {
        Some(words) => unknown_fibre(net, &words.fibres),
        None => None,
    }
}

/// Whether a live service has the name.
pub fn is_taken(services: &Services, name: &Name) -> bool
    ensures { result ≡ is_some (service_of services.now.list name.now) }
{
    services.find(name).is_some()
}

// Whether there are as many services as the network allows.
fn is_full(setup: &NetSetup, services: &Services) -> bool
    ensures { result ≡ nat_le setup.now.services (length services.now.list) }
{
    usize::from(setup.services) <= services.len()
}

// The reply for a name that is taken, or else for a full list.
fn no_room(setup: &NetSetup, services: &Services, name: &Name) -> Option<Reply>
    ensures { option_map reply_told result ≡ placing.no_room setup.now services.now.list name.now }
{
    if is_taken(services, name) {
        return Some(Reply::Taken { name: *name });
    }
    if is_full(setup, services) {
        return Some(Reply::FullServices);
    }
    None
}

/// The reply for the first cause that is no path's: a node that is unknown, a fibre that is unknown, a name that
/// is taken, or a full list. None where there is no such cause.
pub fn refusal(
    setup: &NetSetup,
    services: &Services,
    demand: &Demand,
    work: &FibreNames,
    back: &Option<BackWords>,
) -> Option<Reply>
    ensures { option_map reply_told result ≡ placing.refusal setup.now services.now.list demand.now (placing.fibres_written work.now (told_backs back.now)) }
{
    if let Some(name) = unknown_end(&setup.net, &demand.src, &demand.dst) {
        return Some(Reply::Unknown { name });
    }
    if let Some(name) = unknown_written(&setup.net, work, back) {
        return Some(Reply::Unknown { name });
    }
    no_room(setup, services, &demand.name)
}

/// The same of a service whose fibres are not given.
pub fn refused_service(setup: &NetSetup, services: &Services, demand: &Demand) -> Option<Reply>
    ensures { option_map reply_told result ≡ placing.refusal setup.now services.now.list demand.now [] }
{
    if let Some(name) = unknown_end(&setup.net, &demand.src, &demand.dst) {
        return Some(Reply::Unknown { name });
    }
    no_room(setup, services, &demand.name)
}
