//! What is lit.
ghost use Rattle.std.specs.Prelude.{◌≡◌, ◌≤◌, [], ◌∷◌, ◌++◌, codes, length, Bool, false, IsTrue, IfSome, if◌then◌else◌};
ghost use Rattle.std.specs.Fmt.{decimal};
ghost use Rattle.std.specs.List.{flat_map};
ghost use Rattle.std.specs.Option.{option_to_list};
ghost use Rattle.eon_model.specs.Legal.{Legal};
ghost use Rattle.eon_model.specs.LiveFailure as model;
ghost use Rattle.eon_model.specs.LiveReplies.{light_line};
ghost use Rattle.eon_model.specs.Names.{Name as model_name};
ghost use Rattle.eon_model.specs.NetworkText.{is_setup};
ghost use Rattle.eon_model.specs.ReplyText.{word_line};
ghost use Rattle.line_writer.specs.Sent.{Takes};
ghost use Rattle.line_writer.specs.Words.{behind};
ghost use Rattle.live_failure.specs.Lit.{lit_path, lit_back};
ghost use Rattle.plan_report.specs.InRange.{PathInRange, ServiceInRange};

use crate::dark::is_down;
use crate::groups::put_count;
use crate::paths::put_path;
use eon_base::name::Name;
use leg_state::{Path, Service, Services};
use line_writer::{TextSink, end_line, put_name, put_word};
use net_graph::Net;
use net_setup::NetSetup;

// `b` for a backup, and `w` for a working path.
fn put_kind<W: TextSink>(is_backup: bool, out: &mut W)
    ensures { Takes (W.sent out.old) (W.sent out.new) (behind ((if is_backup then codes "b" else codes "w") ∷ [])) }
{
    if is_backup {
        put_word(b"b", out);
    } else {
        put_word(b"w", out);
    }
}

// The line of a path that is lit.
fn put_light<W: TextSink>(net: &Net, name: &Name, is_backup: bool, path: &Path, out: &mut W)
    requires { PathInRange net.now path.now }
    ensures { Takes (W.sent out.old) (W.sent out.new) (light_line net.now (record { name = name.now; is_backup = is_backup; path = path.now })) }
{
    out.put(b"light");
    put_name(name, out);
    put_kind(is_backup, out);
    put_path(net, path, out);
    end_line(out);
}

// The line of the path, where no failed group hits it.
fn put_lit<W: TextSink>(
    net: &Net,
    failed: &[u8],
    name: &Name,
    is_backup: bool,
    path: &Path,
    out: &mut W,
)
    requires { PathInRange net.now path.now }
    ensures { Takes (W.sent out.old) (W.sent out.new) (flat_map (light_line net.now) (lit_path failed.now name.now is_backup path.now)) }
{
    if !is_down(failed, &path.route) {
        put_light(net, name, is_backup, path, out);
    }
}

// The line of the backup, where it is there and no failed group hits it.
fn put_lit_back<W: TextSink>(
    net: &Net,
    failed: &[u8],
    name: &Name,
    back: &Option<Path>,
    out: &mut W,
)
    requires { IfSome back.now (PathInRange net.now) }
    ensures { Takes (W.sent out.old) (W.sent out.new) (flat_map (light_line net.now) (lit_back failed.now name.now back.now)) }
{
    if let Some(path) = back {
        put_lit(net, failed, name, true, path, out);
    }
}

// Whether the backup of the service is lit, where no failed group hits it.
fn lights_backup(failed: &[u8], service: &Service) -> bool
    ensures { result ≡ model.lights_backup failed.now service.now }
{
    service.class.dual() || service.class.shared() && is_down(failed, &service.leg.work.route)
}

// The working path of the service, where it is lit.
fn put_work<W: TextSink>(net: &Net, failed: &[u8], service: &Service, out: &mut W)
    requires { ServiceInRange net.now service.now }
    ensures { Takes (W.sent out.old) (W.sent out.new) (flat_map (light_line net.now) (lit_path failed.now service.now.name false service.now.leg.work)) }
{
    put_lit(net, failed, &service.name, false, &service.leg.work, out);
}

// The backup of the service, where it is there and no failed group hits it.
fn put_back<W: TextSink>(net: &Net, failed: &[u8], service: &Service, out: &mut W)
    requires { ServiceInRange net.now service.now }
    ensures { Takes (W.sent out.old) (W.sent out.new) (flat_map (light_line net.now) (lit_back failed.now service.now.name service.now.leg.back)) }
{
    put_lit_back(net, failed, &service.name, &service.leg.back, out);
}

// What the service has lit.
fn put_service<W: TextSink>(net: &Net, failed: &[u8], service: &Service, out: &mut W)
    requires { ServiceInRange net.now service.now }
    ensures { Takes (W.sent out.old) (W.sent out.new) (flat_map (light_line net.now) (model.lit_by_service failed.now service.now)) }
{
    put_work(net, failed, service, out);
    if lights_backup(failed, service) {
        put_back(net, failed, service, out);
    }
}

// What each has lit.
fn put_services<W: TextSink>(setup: &NetSetup, services: &Services, failed: &[u8], out: &mut W)
    requires setup { IsTrue (is_setup setup.now) }
    requires legal { Legal setup.now services.now.list }
    ensures { Takes (W.sent out.old) (W.sent out.new) (flat_map (light_line setup.now.network) (model.lit_now failed.now services.now.list)) }
{
    for i in 0..services.len() {
        put_service(&setup.net, failed, services.at(i), out);
    }
}

// How many lights the path is: one, where no failed group hits it.
fn path_count(failed: &[u8], path: &Path) -> usize
    ensures count { (name : model_name) (is_backup : Bool) → result ≡ length (lit_path failed.now name is_backup path.now) }
    ensures few { result ≤ 1 }
{
    if is_down(failed, &path.route) { 0 } else { 1 }
}

// The same of a backup.
fn back_count(failed: &[u8], back: &Option<Path>) -> usize
    ensures count { (name : model_name) → result ≡ length (lit_back failed.now name back.now) }
    ensures few { result ≤ 1 }
{
    match back {
        Some(path) => path_count(failed, path),
        None => 0,
    }
}

// How many lights the service has.
fn service_count(failed: &[u8], service: &Service) -> usize
    ensures count { result ≡ length (model.lit_by_service failed.now service.now) }
    ensures few { result ≤ 2 }
{
    let work = path_count(failed, &service.leg.work);
    if lights_backup(failed, service) {
        work + back_count(failed, &service.leg.back)
    } else {
        work
    }
}

// How many there are.
fn light_count(services: &Services, failed: &[u8]) -> u64
    requires { length services.now.list ≤ 4096 }
    ensures { result ≡ length (model.lit_now failed.now services.now.list) }
{
    let mut count = 0;
    for i in 0..services.len() {
        count += service_count(failed, services.at(i)) as u64;
    }
    count
}

// The same, and each of them.
fn put_all<W: TextSink>(setup: &NetSetup, services: &Services, failed: &[u8], out: &mut W)
    requires setup { IsTrue (is_setup setup.now) }
    requires legal { Legal setup.now services.now.list }
    ensures { Takes (W.sent out.old) (W.sent out.new)
        (word_line (codes "lights") (decimal (length (model.lit_now failed.now services.now.list)))
        ++ flat_map (light_line setup.now.network) (model.lit_now failed.now services.now.list)) }
{
    put_count(b"lights", light_count(services, failed), out);
    put_services(setup, services, failed, out);
}

/// How many paths are lit with this group failed, or with none, and each of them.
pub(crate) fn put_lights<W: TextSink>(
    setup: &NetSetup,
    services: &Services,
    failed: Option<u8>,
    out: &mut W,
)
    requires setup { IsTrue (is_setup setup.now) }
    requires legal { Legal setup.now services.now.list }
    ensures { Takes (W.sent out.old) (W.sent out.new)
        (word_line (codes "lights") (decimal (length (model.lit_now (option_to_list failed) services.now.list)))
        ++ flat_map (light_line setup.now.network) (model.lit_now (option_to_list failed) services.now.list)) }
{
    match failed {
        Some(group) => put_all(setup, services, &[group], out),
        None => put_all(setup, services, &[], out),
    }
}
