//! The totals of a state, counted.
ghost use Rattle.std.specs.Prelude.{◌≡◌, ◌≤◌, length, count_by, IsTrue};
ghost use Rattle.eon_model.specs.Legal.{Legal};
ghost use Rattle.eon_model.specs.Listings.{totals};
ghost use Rattle.eon_model.specs.NetworkText.{is_setup};
ghost use Rattle.plan_report.specs.Featured.{has_feature};

use crate::rows::{Kind, units_held};
use crate::stats::Stats;
use leg_state::service::Service;
use leg_state::services::Services;
use net_setup::NetSetup;

// How many services there are.
fn service_count(services: &Services) -> u32
    requires { length services.now.list ≤ 65535 }
    ensures { result ≡ length services.now.list }
{
    services.len() as u32
}

// What services are counted for.
#[derive(Clone, Copy, Debug)]
enum Feature {
    // A class with a backup.
    Protected,
    // A channel that drifts.
    Drifting,
    // A new leg beside the old one.
    Making,
}

// Whether the service has it.
fn has_feature(service: &Service, feature: Feature) -> bool
    ensures { result ≡ has_feature feature service.now }
{
    match feature {
        Feature::Protected => service.class.protected(),
        Feature::Drifting => service.leg.to.is_some(),
        Feature::Making => service.next.is_some(),
    }
}

// How many services have it.
fn count_where(services: &Services, feature: Feature) -> u32
    requires { length services.now.list ≤ 65535 }
    ensures { result ≡ count_by (has_feature feature) services.now.list }
{
    let mut count = 0;
    for i in 0..services.len() {
        count += u32::from(has_feature(services.at(i), feature));
    }
    count
}

/// The totals of a legal state: counts of services, and of the pairs of a fibre and a unit of 6.25 GHz that are
/// lit, by working paths and dual backups, and that shared backups hold dark. No memory is taken.
pub fn stats(setup: &NetSetup, services: &Services) -> Stats
    requires setup { IsTrue (is_setup setup.now) }
    requires legal { Legal setup.now services.now.list }
    ensures { result ≡ totals setup.now services.now.list }
{
    Stats {
        services: service_count(services),
        protected: count_where(services, Feature::Protected),
        drifting: count_where(services, Feature::Drifting),
        making: count_where(services, Feature::Making),
        lit: units_held(setup, Kind::Lit, services),
        held: units_held(setup, Kind::Held, services),
    }
}
