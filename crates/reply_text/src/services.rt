//! The words of services.
ghost use Rattle.std.specs.Prelude.{◌≡◌, ◌<◌, [], ◌∷◌, ◌++◌, length, IsTrue, IfSome};
ghost use Rattle.std.specs.Option.{option_to_list, option_and_then};
ghost use Rattle.std.specs.List.{flat_map};
ghost use Rattle.std.specs.Fmt.{decimal};
ghost use Rattle.eon_model.specs.Legal.{Legal};
ghost use Rattle.eon_model.specs.Listings.{class_word};
ghost use Rattle.eon_model.specs.Network.{name_at};
ghost use Rattle.eon_model.specs.NetworkText.{is_setup};
ghost use Rattle.eon_model.specs.ReplyText.{leg_words, target_words, new_leg_words, service_line, old_leg_words, second_leg_words};
ghost use Rattle.eon_model.specs.Services.{service_of};
ghost use Rattle.plan_report.specs.InRange.{LegInRange, ServiceInRange};
ghost use Rattle.line_writer.specs.Words.{behind};
ghost use Rattle.line_writer.specs.Sent.{Takes};

use crate::legs::{put_leg, put_new_leg, put_target};
use eon_base::name::Name;
use leg_state::{Leg, Service, Services};
use line_writer::{TextSink, end_line, put_class, put_name, put_number};
use net_graph::Net;
use net_setup::NetSetup;

// The name of the node.
fn put_node<W: TextSink>(net: &Net, node: u8, out: &mut W)
    requires { node < length net.now.nodes }
    ensures { Takes (W.sent out.old) (W.sent out.new) (behind (name_at net.now.nodes node ∷ [])) }
{
    put_name(&net.node_name(node), out);
}

// Its name, its ends, its rate and its class.
#[tactic(auto, using(line_writer::proofs::WordLaws::words))]
fn put_demand<W: TextSink>(net: &Net, service: &Service, out: &mut W)
    requires { ServiceInRange net.now service.now }
    ensures { Takes (W.sent out.old) (W.sent out.new) (behind
        (service.now.name ∷ name_at net.now.nodes service.now.src ∷ name_at net.now.nodes service.now.dst
        ∷ decimal service.now.rate ∷ class_word service.now.class ∷ [])) }
{
    put_name(&service.name, out);
    put_node(net, service.src, out);
    put_node(net, service.dst, out);
    put_number(service.rate as u64, out);
    put_class(service.class, out);
}

// Its leg, and its move.
#[tactic(auto, using(line_writer::proofs::WordLaws::words))]
fn put_legs<W: TextSink>(net: &Net, service: &Service, out: &mut W)
    requires { ServiceInRange net.now service.now }
    ensures { Takes (W.sent out.old) (W.sent out.new) (behind
        (leg_words net.now service.now.leg ++ target_words service.now.leg.to ++ new_leg_words net.now service.now.next)) }
{
    put_leg(net, &service.leg, out);
    put_target(&service.leg, out);
    put_new_leg(net, &service.next, out);
}

/// The line of a service.
pub(crate) fn put_service<W: TextSink>(net: &Net, service: &Service, out: &mut W)
    requires { ServiceInRange net.now service.now }
    ensures { Takes (W.sent out.old) (W.sent out.new) (service_line net.now service.now) }
{
    out.put(b"service");
    put_demand(net, service, out);
    put_legs(net, service, out);
    end_line(out);
}

/// The leg of the service of this name; nothing where there is none.
pub(crate) fn put_old_leg<W: TextSink>(
    setup: &NetSetup,
    services: &Services,
    name: &Name,
    out: &mut W,
)
    requires setup { IsTrue (is_setup setup.now) }
    requires legal { Legal setup.now services.now.list }
    ensures { Takes (W.sent out.old) (W.sent out.new) (behind (old_leg_words setup.now.network services.now.list name.now)) }
{
    if let Some(service) = services.find(name) {
        put_leg(&setup.net, &service.leg, out);
    }
}

// The new leg, where there is one.
fn put_second<W: TextSink>(net: &Net, next: &Option<Leg>, out: &mut W)
    requires { IfSome next.now (LegInRange net.now) }
    ensures { Takes (W.sent out.old) (W.sent out.new) (behind (flat_map (leg_words net.now) (option_to_list next.now))) }
{
    if let Some(leg) = next {
        put_leg(net, leg, out);
    }
}

/// The new leg of the service of this name; nothing where there is none.
pub(crate) fn put_second_leg<W: TextSink>(
    setup: &NetSetup,
    services: &Services,
    name: &Name,
    out: &mut W,
)
    requires setup { IsTrue (is_setup setup.now) }
    requires legal { Legal setup.now services.now.list }
    ensures { Takes (W.sent out.old) (W.sent out.new) (behind (second_leg_words setup.now.network services.now.list name.now)) }
{
    if let Some(service) = services.find(name) {
        put_second(&setup.net, &service.next, out);
    }
}

/// The line of the service of this name; nothing where there is none.
pub(crate) fn put_named<W: TextSink>(
    setup: &NetSetup,
    services: &Services,
    name: &Name,
    out: &mut W,
)
    requires setup { IsTrue (is_setup setup.now) }
    requires legal { Legal setup.now services.now.list }
    ensures { Takes (W.sent out.old) (W.sent out.new) (flat_map (service_line setup.now.network) (option_to_list (service_of services.now.list name.now))) }
{
    if let Some(service) = services.find(name) {
        put_service(&setup.net, service, out);
    }
}
