//! Which services are dark.
//!
//! In a legal state no working path is ever disturbed, nor a backup that is always lit. So a service is dark just where
//! its working route is down and its backup is not lit, or, for a shared one, lit where a rival's is lit too: that of
//! another shared service which overlaps it.
ghost use Rattle.std.specs.Prelude.{◌≡◌, ◌&&◌, Bool};
ghost use Rattle.eon_model.specs.LiveFailure as model;
ghost use Rattle.eon_model.specs.Moments.{paths_collide};
ghost use Rattle.eon_model.specs.Route as routes;
ghost use Rattle.live_failure.specs.Parts.{backup_up, backs_overlap, is_rival, has_switched, is_crossed, lost_where, is_lost};
ghost use Rattle.live_failure.specs.Standings.{is_dark_by};

use leg_state::holding::{path_span, share_fibre};
use leg_state::{Path, Service, Services};
use net_graph::Route;

/// Whether the group hits the route.
pub(crate) fn hits(group: u8, route: &Route) -> bool
    ensures { result ≡ routes.hits group route.now }
{
    route.risk().has(u16::from(group))
}

/// Whether one of the failed groups hits the route.
pub(crate) fn is_down(failed: &[u8], route: &Route) -> bool
    ensures { result ≡ model.is_down failed.now route.now }
{
    failed.iter().any(|group| hits(*group, route))
}

/// Whether the backup is there and no failed group hits it.
pub(crate) fn backup_up(failed: &[u8], back: &Option<Path>) -> bool
    ensures { result ≡ backup_up failed.now back.now }
{
    match back {
        Some(path) => !is_down(failed, &path.route),
        None => false,
    }
}

// Whether two paths overlap on a common fibre.
fn paths_collide(p: &Path, q: &Path) -> bool
    ensures { result ≡ paths_collide p.now q.now }
{
    path_span(p).overlaps(&path_span(q)) && share_fibre(&p.route, &q.route)
}

// Whether both backups are there and overlap.
fn backs_overlap(one: &Option<Path>, other: &Option<Path>) -> bool
    ensures { result ≡ backs_overlap one.now other.now }
{
    let Some(p) = one else {
        return false;
    };
    let Some(q) = other else {
        return false;
    };
    paths_collide(p, q)
}

/// Whether the other one is another shared service, the backup of which overlaps this one's.
pub(crate) fn is_rival(own: &Service, other: &Service) -> bool
    ensures { result ≡ is_rival own.now other.now }
{
    other.class.shared()
        && backs_overlap(&own.leg.back, &other.leg.back)
        && !other.is_named(&own.name)
}

/// Whether the backup of a shared service has taken over.
pub(crate) fn has_switched(failed: &[u8], service: &Service) -> bool
    ensures { result ≡ has_switched failed.now service.now }
{
    is_down(failed, &service.leg.work.route) && backup_up(failed, &service.leg.back)
}

// Whether it is a rival whose backup has taken over.
fn crosses(own: &Service, failed: &[u8], other: &Service) -> bool
    ensures { result ≡ (has_switched failed.now other.now && is_rival own.now other.now) }
{
    has_switched(failed, other) && is_rival(own, other)
}

// Whether a rival's backup has taken over.
fn is_crossed(services: &Services, failed: &[u8], own: &Service) -> bool
    ensures { result ≡ is_crossed services.now.list failed.now own.now }
{
    for i in 0..services.len() {
        if crosses(own, failed, services.at(i)) {
            return true;
        }
    }
    false
}

/// How a service stands while groups have failed.
#[derive(Clone, Copy, Debug, PartialEq, Eq)]
pub(crate) enum Standing {
    /// It has a light that nothing disturbs.
    Carried,
    /// It has no light.
    Dark,
    /// The backup of a shared service has taken over.
    OnBackup,
}

/// How the service stands, whatever has become of its rivals.
pub(crate) fn standing_of(failed: &[u8], own: &Service) -> Standing
    ensures { (crossed : Bool) → lost_where crossed failed.now own.now ≡ is_dark_by result crossed }
{
    if !is_down(failed, &own.leg.work.route) {
        Standing::Carried
    } else if !backup_up(failed, &own.leg.back) {
        Standing::Dark
    } else if own.class.shared() {
        Standing::OnBackup
    } else {
        Standing::Carried
    }
}

/// Whether the service is dark.
pub(crate) fn is_dark(services: &Services, failed: &[u8], own: &Service) -> bool
    ensures { result ≡ is_lost services.now.list failed.now own.now }
{
    match standing_of(failed, own) {
        Standing::Carried => false,
        Standing::Dark => true,
        Standing::OnBackup => is_crossed(services, failed, own),
    }
}
