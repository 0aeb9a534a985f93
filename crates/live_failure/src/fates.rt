//! What becomes of the services that a group hits.
ghost use Rattle.std.specs.Prelude.{◌≡◌, [], ◌∷◌, ◌++◌, codes, length, Some, IsTrue, IfSome};
ghost use Rattle.std.specs.Fmt.{decimal};
ghost use Rattle.std.specs.List.{flat_map};
ghost use Rattle.eon_model.specs.Legal.{Legal};
ghost use Rattle.eon_model.specs.LiveFailure as model;
ghost use Rattle.eon_model.specs.LiveReplies.{fate_line};
ghost use Rattle.eon_model.specs.Network.{risk_name};
ghost use Rattle.eon_model.specs.NetworkText.{is_setup};
ghost use Rattle.eon_model.specs.ReplyText.{path_words};
ghost use Rattle.eon_model.specs.Spelling.{line};
ghost use Rattle.line_writer.specs.Sent.{Takes};
ghost use Rattle.live_failure.specs.Parts.{fate_by, fates_by};
ghost use Rattle.plan_report.specs.InRange.{PathInRange, ServiceInRange};

use crate::dark::hits;
use crate::groups::put_group;
use crate::paths::put_path;
use eon_base::name::Name;
use eon_model::Class;
use leg_state::{Path, Service, Services};
use line_writer::{TextSink, end_line, put_name, put_number, put_word};
use net_graph::Net;
use net_setup::NetSetup;

// A line of a word, a name and a path.
fn put_carried<W: TextSink>(word: &[u8], net: &Net, name: &Name, back: &Path, out: &mut W)
    requires { PathInRange net.now back.now }
    ensures { Takes (W.sent out.old) (W.sent out.new) (line (word.now ∷ name.now ∷ path_words net.now back.now)) }
{
    out.put(word);
    put_name(name, out);
    put_path(net, back, out);
    end_line(out);
}

// The line of a service that is dark.
fn put_dark<W: TextSink>(name: &Name, out: &mut W)
    ensures { Takes (W.sent out.old) (W.sent out.new) (line (codes "dark" ∷ name.now ∷ [])) }
{
    out.put(b"dark");
    put_name(name, out);
    end_line(out);
}

// What becomes of a service of this class with a backup.
fn put_backed<W: TextSink>(net: &Net, name: &Name, class: Class, back: &Path, out: &mut W)
    requires { PathInRange net.now back.now }
    ensures { Takes (W.sent out.old) (W.sent out.new) (fate_line net.now (fate_by name.now class (Some back.now))) }
{
    match class {
        Class::Bare => put_dark(name, out),
        Class::Shared => put_carried(b"switch", net, name, back, out),
        Class::Dual => put_carried(b"keep", net, name, back, out),
    }
}

// What becomes of a service of this class with this backup or with none.
fn put_fate<W: TextSink>(net: &Net, name: &Name, class: Class, back: &Option<Path>, out: &mut W)
    requires { IfSome back.now (PathInRange net.now) }
    ensures { Takes (W.sent out.old) (W.sent out.new) (fate_line net.now (fate_by name.now class back.now)) }
{
    match back {
        Some(path) => put_backed(net, name, class, path, out),
        None => put_dark(name, out),
    }
}

// What becomes of the service, where the group hits its old leg's working route.
fn put_hit<W: TextSink>(net: &Net, group: u8, service: &Service, out: &mut W)
    requires { ServiceInRange net.now service.now }
    ensures { Takes (W.sent out.old) (W.sent out.new) (flat_map (fate_line net.now) (fates_by group service.now)) }
{
    if hits(group, &service.leg.work.route) {
        put_fate(net, &service.name, service.class, &service.leg.back, out);
    }
}

// What becomes of each service that the group hits.
fn put_hits<W: TextSink>(setup: &NetSetup, services: &Services, group: u8, out: &mut W)
    requires setup { IsTrue (is_setup setup.now) }
    requires legal { Legal setup.now services.now.list }
    ensures { Takes (W.sent out.old) (W.sent out.new) (flat_map (fate_line setup.now.network) (model.fates_of group services.now.list)) }
{
    for i in 0..services.len() {
        put_hit(&setup.net, group, services.at(i), out);
    }
}

// How many services the group hits.
fn hit_count(services: &Services, group: u8) -> u64
    ensures { result ≡ length (model.fates_of group services.now.list) }
{
    let mut count = 0;
    for i in 0..services.len() {
        if hits(group, &services.at(i).leg.work.route) {
            count += 1;
        }
    }
    count
}

// `ok fail`, the group and a count.
fn put_failed_line<W: TextSink>(net: &Net, group: u8, count: u64, out: &mut W)
    ensures { Takes (W.sent out.old) (W.sent out.new) (line (codes "ok" ∷ codes "fail" ∷ risk_name net.now group ∷ decimal count ∷ [])) }
{
    out.put(b"ok");
    put_word(b"fail", out);
    put_group(net, group, out);
    put_number(count, out);
    end_line(out);
}

/// The group, how many services it hits, and what becomes of each.
pub(crate) fn put_failed<W: TextSink>(setup: &NetSetup, services: &Services, group: u8, out: &mut W)
    requires setup { IsTrue (is_setup setup.now) }
    requires legal { Legal setup.now services.now.list }
    ensures { Takes (W.sent out.old) (W.sent out.new)
        (line (codes "ok" ∷ codes "fail" ∷ risk_name setup.now.network group ∷ decimal (length (model.fates_of group services.now.list)) ∷ [])
        ++ flat_map (fate_line setup.now.network) (model.fates_of group services.now.list)) }
{
    put_failed_line(&setup.net, group, hit_count(services, group), out);
    put_hits(setup, services, group, out);
}
