//! How many paths hold each unit of a fibre.
ghost use Rattle.std.specs.Prelude.{◌≡◌, ℕ, ◌+◌, ◌*◌, ◌<◌, ◌≤◌, nat_le, nat_lt, ◌&&◌, [], ◌∷◌, length, map, count_by, pos, ◌-ℤ◌, neg_ℤ, ◌≤ℤ◌, slice_index};
ghost use Rattle.std.specs.Int.{int_min, int_max};
ghost use Rattle.std.specs.List.{list_any};
ghost use Rattle.eon_model.specs.Lists.{integers_from};
ghost use Rattle.eon_model.specs.Listings as listings;
ghost use Rattle.eon_model.specs.Listings.{holds};
ghost use Rattle.eon_model.specs.FirstFit.{centres_in};
ghost use Rattle.eon_model.specs.Grid.{unit_count, has_unit, span_of};
ghost use Rattle.eon_model.specs.Services.{working_holding};
ghost use Rattle.plan_report.specs.Counted.{over, backups_if, taken, service_holdings, state_holdings, holders, one_if, Grows, AtMost};

use eon_model::Class;
use flex_grid::band::Band;
use leg_state::holding::{Span, channel_span, has_fibre, path_span};
use leg_state::leg::Leg;
use leg_state::service::Service;
use leg_state::services::Services;
use net_graph::Route;
use net_setup::NetSetup;

/// The most units of a band.
pub(crate) const MOST_UNITS: usize = 1024;

/// Which holdings are counted.
#[derive(Clone, Copy, Debug)]
pub(crate) enum Kind {
    /// Those that are lit: working paths, and the backups of dual services.
    Lit,
    /// Those that are held dark: the backups of shared services.
    Held,
}

// The place of a unit among so many from the lowest on: the first one for a lower unit, and their number
// for one that is higher.
fn place_of(unit: i64, lowest: i16, len: usize) -> usize
    requires units { unit ≤ℤ pos 4294967296 }
    requires low { neg_ℤ (pos 4294967296) ≤ℤ unit }
    requires few { len ≤ 1024 }
    ensures { pos result ≡ int_min (int_max (unit -ℤ lowest) (pos 0)) (pos len) }
{
    (unit - i64::from(lowest)).max(0).min(len as i64) as usize
}

// One more at each place from `from` on up to `to`, without that one.
fn count_places(counts: &mut [u32], from: usize, to: usize)
    requires room { AtMost 1000000 counts.old }
    requires within { to ≤ length counts.old }
    ensures length { length counts.new ≡ length counts.old }
    ensures each { (k : ℕ) → k < length counts.old → slice_index counts.new k ≡ slice_index counts.old k + one_if (nat_le from k && nat_lt k to) }
{
    for k in from..to {
        counts[k] += 1;
    }
}

// One more for each of these units that is there.
fn count_span(counts: &mut [u32], lowest: i16, units: &Span)
    requires room { AtMost 1000000 counts.old }
    requires few { length counts.old ≤ 1024 }
    ensures { Grows lowest (λ u. one_if (has_unit units.now u)) counts.old counts.new }
{
    let len = counts.len();
    let from = place_of(i64::from(units.lo()), lowest, len);
    let to = place_of(i64::from(units.hi()) + 1, lowest, len);
    count_places(counts, from, to);
}

// One more for each of these units that is there, where the route has the fibre.
fn count_route(counts: &mut [u32], lowest: i16, fibre: u8, route: &Route, units: &Span)
    requires room { AtMost 1000000 counts.old }
    requires few { length counts.old ≤ 1024 }
    ensures { Grows lowest (holders fibre (over route.now units.now ∷ [])) counts.old counts.new }
{
    if has_fibre(route, fibre) {
        count_span(counts, lowest, units);
    }
}

// One more for each unit of the leg's channel on the fibre.
fn count_channel(counts: &mut [u32], lowest: i16, fibre: u8, leg: &Leg)
    requires room { AtMost 1000000 counts.old }
    requires few { length counts.old ≤ 1024 }
    ensures { Grows lowest (holders fibre (working_holding leg.now ∷ [])) counts.old counts.new }
{
    count_route(counts, lowest, fibre, &leg.work.route, &channel_span(leg));
}

// One more for each unit of the leg's backup on the fibre, where backups count.
fn count_backup(counts: &mut [u32], lowest: i16, fibre: u8, is_counted: bool, leg: &Leg)
    requires room { AtMost 1000000 counts.old }
    requires few { length counts.old ≤ 1024 }
    ensures { Grows lowest (holders fibre (backups_if is_counted leg.now)) counts.old counts.new }
{
    if is_counted {
        if let Some(back) = &leg.back {
            count_route(counts, lowest, fibre, &back.route, &path_span(back));
        }
    }
}

// One more for each unit that the leg takes on the fibre in this way.
fn count_leg(counts: &mut [u32], lowest: i16, fibre: u8, kind: Kind, class: Class, leg: &Leg)
    requires room { AtMost 999999 counts.old }
    requires few { length counts.old ≤ 1024 }
    ensures { Grows lowest (holders fibre (taken kind class leg.now)) counts.old counts.new }
{
    match kind {
        Kind::Lit => {
            count_channel(counts, lowest, fibre, leg);
            count_backup(counts, lowest, fibre, class.dual(), leg);
        }
        Kind::Held => count_backup(counts, lowest, fibre, class.shared(), leg),
    }
}

// One more for each unit that a leg of the service takes on the fibre in this way.
fn count_service(counts: &mut [u32], lowest: i16, fibre: u8, kind: Kind, service: &Service)
    requires room { AtMost 999997 counts.old }
    requires few { length counts.old ≤ 1024 }
    ensures { Grows lowest (holders fibre (service_holdings kind service.now)) counts.old counts.new }
{
    count_leg(counts, lowest, fibre, kind, service.class, &service.leg);
    if let Some(next) = &service.next {
        count_leg(counts, lowest, fibre, kind, service.class, next);
    }
}

// Counts the units from the lowest on that the services take on the fibre in this way.
fn count_services(counts: &mut [u32], lowest: i16, fibre: u8, kind: Kind, services: &Services)
    requires empty { AtMost 0 counts.old }
    requires few { length counts.old ≤ 1024 }
    requires services { length services.now.list ≤ 65535 }
    ensures { Grows lowest (holders fibre (state_holdings kind services.now.list)) counts.old counts.new }
{
    for i in 0..services.len() {
        count_service(counts, lowest, fibre, kind, services.at(i));
    }
}

// Puts each count to 0.
fn clear(counts: &mut [u32])
    ensures length { length counts.new ≡ length counts.old }
    ensures zero { AtMost 0 counts.new }
{
    counts.fill(0);
}

// How many paths of the services hold each unit from the lowest on, on the fibre and in this way.
pub(crate) fn count_row(counts: &mut [u32], lowest: i16, fibre: u8, kind: Kind, services: &Services)
    requires few { length counts.old ≤ 1024 }
    requires services { length services.now.list ≤ 65535 }
    ensures { counts.new ≡ map (holders fibre (state_holdings kind services.now.list)) (integers_from lowest (length counts.old)) }
{
    clear(counts);
    count_services(counts, lowest, fibre, kind, services);
}

// How many units lie from the lowest to the highest of the band, gaps among them.
pub(crate) fn band_units(band: &Band) -> usize
    ensures count { result ≡ unit_count (span_of band.now) }
    ensures few { result ≤ 1024 }
{
    (i32::from(band.hi()) - i32::from(band.lo()) + 1) as usize
}

// How many of the counts are above 0.
fn count_positive(counts: &[u32]) -> u32
    requires { length counts.now ≤ 1024 }
    ensures value { result ≡ count_by (nat_lt 0) counts.now }
    ensures few { result ≤ 1024 }
{
    counts.iter().filter(|count| **count > 0).count() as u32
}

// How many units of the band the services hold on the fibre in this way.
fn units_on(setup: &NetSetup, fibre: u8, kind: Kind, services: &Services) -> u32
    requires { length services.now.list ≤ 65535 }
    ensures value { result ≡ count_by (λ u. list_any (holds fibre u) (state_holdings kind services.now.list)) (centres_in setup.now.band) }
    ensures few { result ≤ 1024 }
{
    let mut row = [0; MOST_UNITS];
    let counts = &mut row[..band_units(&setup.band)];
    count_row(counts, setup.band.lo(), fibre, kind, services);
    count_positive(counts)
}

// How many pairs of a fibre and a unit of the band the services take in this way.
pub(crate) fn units_held(setup: &NetSetup, kind: Kind, services: &Services) -> u32
    requires { length services.now.list ≤ 65535 }
    ensures { result ≡ listings.units_held setup.now (state_holdings kind services.now.list) }
{
    let mut held = 0;
    for fibre in 0..setup.net.fibres() {
        held += units_on(setup, fibre, kind, services);
    }
    held
}
