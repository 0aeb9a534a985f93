//! The report of a state, as JSON.
ghost use Rattle.std.specs.Prelude.{◌≡◌, ◌<◌, length, map, IsTrue, IfOk, OnOk};
ghost use Rattle.std.specs.List.{list_all};
ghost use Rattle.serde_json.specs.Data.{string};
ghost use Rattle.serde_json.specs.View.{view};
ghost use Rattle.eon_model.specs.Grid.{span_of};
ghost use Rattle.eon_model.specs.Legal.{Legal};
ghost use Rattle.eon_model.specs.Listings as listings;
ghost use Rattle.eon_model.specs.Names.{is_name};
ghost use Rattle.eon_model.specs.Network.{AreFibres};
ghost use Rattle.eon_model.specs.NetworkText.{is_setup};
ghost use Rattle.eon_model.specs.Services.{legs_of};
ghost use Rattle.plan_report.specs.InRange.{LegInRange, ServiceInRange};
ghost use Rattle.plan_report.specs.Reported.{integer_data, data_or_null, fibre_data, path_data, leg_data, service_data, totals_data, band_data, report_data};

use crate::stats::Stats;
use crate::text::Text;
use crate::totals::stats;
use eon_base::name::Name;
use eon_model::Class;
use flex_grid::band::Band;
use leg_state::leg::{Leg, Path};
use leg_state::service::Service;
use leg_state::services::Services;
use net_graph::Net;
use net_setup::NetSetup;
use serde_json::{Value, json};
use std::alloc::{AllocError, Global};

// The name as text.
fn name_text(name: &Name) -> &str
    ensures text { result.now ≡ name.now }
    ensures name { IsTrue (is_name name.now) }
{
    match str::from_utf8(name.bytes()) {
        Ok(text) => text,
        Err(_) => unreachable!(),
    }
}

fn name_value(alloc: Global, name: &Name) -> Result<Value, AllocError>
    ensures value { IfOk result (λ v. view v ≡ string name.now) }
    ensures name { IsTrue (is_name name.now) }
{
    json!(in alloc; name_text(name))
}

// The names of the fibres of these numbers.
fn fibre_values(alloc: Global, net: &Net, fibres: &[u8]) -> Result<Vec<Value>, AllocError>
    requires { AreFibres net.now.fibres fibres.now }
    ensures { IfOk result (λ v. map view v.items ≡ map (fibre_data net.now) fibres.now) }
{
    let mut names = Vec::new(alloc);
    for fibre in fibres {
        names.push(name_value(alloc, &net.fibre(*fibre).name)?)?;
    }
    Ok(names)
}

fn path_value(alloc: Global, net: &Net, path: &Path) -> Result<Value, AllocError>
    requires { AreFibres net.now.fibres path.now.route.fibres }
    ensures { IfOk result (λ v. view v ≡ path_data net.now path.now) }
{
    let fibres = fibre_values(alloc, net, path.route.fibres())?;
    json!(in alloc; {
        "centre_mhz": path.slot.centre_mhz(),
        "fibres": fibres,
        "km": path.route.km(),
        "m": path.slot.m(),
        "n": path.slot.n()
    })
}

// The backup of a leg, or null.
fn back_value(alloc: Global, net: &Net, leg: &Leg) -> Result<Value, AllocError>
    requires { LegInRange net.now leg.now }
    ensures { IfOk result (λ v. view v ≡ data_or_null (path_data net.now) leg.now.back) }
{
    match &leg.back {
        Some(back) => path_value(alloc, net, back),
        None => Ok(Value::Null),
    }
}

// The centre that a leg drifts to, or null.
fn target_value(leg: &Leg) -> Value
    ensures { view result ≡ data_or_null integer_data leg.now.to }
{
    match leg.to {
        Some(to) => Value::from(to),
        None => Value::Null,
    }
}

fn leg_value(alloc: Global, net: &Net, leg: &Leg) -> Result<Value, AllocError>
    requires { LegInRange net.now leg.now }
    ensures { IfOk result (λ v. view v ≡ leg_data net.now leg.now) }
{
    let back = back_value(alloc, net, leg)?;
    let work = path_value(alloc, net, &leg.work)?;
    json!(in alloc; {"back": back, "to": target_value(leg), "work": work})
}

// The legs of the service, the old one first.
fn leg_values(alloc: Global, net: &Net, service: &Service) -> Result<Vec<Value>, AllocError>
    requires { ServiceInRange net.now service.now }
    ensures { IfOk result (λ v. map view v.items ≡ map (leg_data net.now) (legs_of service.now)) }
{
    let mut legs = Vec::new(alloc);
    legs.push(leg_value(alloc, net, &service.leg)?)?;
    if let Some(next) = &service.next {
        legs.push(leg_value(alloc, net, next)?)?;
    }
    Ok(legs)
}

// The word of a class.
fn class_word(class: Class) -> &'static str
    ensures { result.now ≡ listings.class_word class }
{
    match class {
        Class::Bare => "bare",
        Class::Shared => "shared",
        Class::Dual => "dual",
    }
}

fn service_value(alloc: Global, net: &Net, service: &Service) -> Result<Value, AllocError>
    requires { ServiceInRange net.now service.now }
    ensures value { IfOk result (λ v. view v ≡ service_data net.now service.now) }
    ensures named { OnOk result (IsTrue (is_name service.now.name)) }
{
    let legs = leg_values(alloc, net, service)?;
    let name = name_value(alloc, &service.name)?;
    let src = name_value(alloc, &net.node_name(service.src))?;
    let dst = name_value(alloc, &net.node_name(service.dst))?;
    json!(in alloc; {
        "class": class_word(service.class),
        "dst": dst,
        "legs": legs,
        "name": name,
        "rate": service.rate,
        "src": src
    })
}

// The services in order of admission.
fn service_values(
    alloc: Global,
    setup: &NetSetup,
    services: &Services,
) -> Result<Vec<Value>, AllocError>
    requires setup { IsTrue (is_setup setup.now) }
    requires legal { Legal setup.now services.now.list }
    ensures values { IfOk result (λ v. map view v.items ≡ map (service_data setup.now.network) services.now.list) }
    ensures named { OnOk result (IsTrue (list_all (λ s. is_name s.name) services.now.list)) }
{
    let mut values = Vec::new(alloc);
    for i in 0..services.len() {
        values.push(service_value(alloc, &setup.net, services.at(i))?)?;
    }
    Ok(values)
}

fn totals_value(alloc: Global, stats: &Stats) -> Result<Value, AllocError>
    ensures { IfOk result (λ v. view v ≡ totals_data stats.now) }
{
    json!(in alloc; {
        "drifting": stats.drifting,
        "held": stats.held,
        "lit": stats.lit,
        "making": stats.making,
        "protected": stats.protected,
        "services": stats.services
    })
}

fn band_value(alloc: Global, band: &Band) -> Result<Value, AllocError>
    ensures { IfOk result (λ v. view v ≡ band_data (span_of band.now)) }
{
    json!(in alloc; [band.lo(), band.hi()])
}

fn report_value(alloc: Global, setup: &NetSetup, services: &Services) -> Result<Value, AllocError>
    requires setup { IsTrue (is_setup setup.now) }
    requires legal { Legal setup.now services.now.list }
    ensures value { IfOk result (λ v. view v ≡ report_data setup.now services.now.list) }
    ensures named { OnOk result (IsTrue (list_all (λ s. is_name s.name) services.now.list)) }
{
    let listed = service_values(alloc, setup, services)?;
    let band = band_value(alloc, &setup.band)?;
    let totals = totals_value(alloc, &stats(setup, services))?;
    json!(in alloc; {"band": band, "services": listed, "stats": totals})
}

/// The report of a legal state: the lowest and the highest unit of the band, each service in order of admission with its legs and their paths,
/// and the totals, as one JSON value in compact text, the keys in byte order, without byte 10. Want of
/// memory is the only failure.
pub fn report_text(alloc: Global, setup: &NetSetup, services: &Services) -> Result<Text, AllocError>
    requires setup { IsTrue (is_setup setup.now) }
    requires legal { Legal setup.now services.now.list }
    ensures { IfOk result (λ t. t ≡ listings.report_text setup.now services.now.list) }
{
    let value = report_value(alloc, setup, services)?;
    let text = value.to_string(alloc)?;
    Ok(Text::of(text.into_bytes()))
}
