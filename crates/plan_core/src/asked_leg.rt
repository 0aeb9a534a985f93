//! The leg that is asked for by paths that are routes, or why they are refused.
ghost use Rattle.std.specs.Prelude.{◌≡◌, ℕ, ◌+◌, ◌<◌, ◌≤◌, IsTrue, IfOk, IfSome, length, map};
ghost use Rattle.std.specs.Option.{option_map, option_and_then};
ghost use Rattle.std.specs.Result.{result_err};
ghost use Rattle.eon_model.specs.Names.{least_name};
ghost use Rattle.eon_model.specs.Sets.{has_member, common_members};
ghost use Rattle.eon_model.specs.Network.{risk_name};
ghost use Rattle.eon_model.specs.Grid.{is_band};
ghost use Rattle.eon_model.specs.Legal as legal;
ghost use Rattle.eon_model.specs.Step as step;
ghost use Rattle.eon_model.specs.NetworkText.{is_setup};
ghost use Rattle.eon_model.specs.CommandText.{is_rate};
ghost use Rattle.reply_text.specs.Replied.{reply_told};
ghost use Rattle.plan_core.specs.Placing as placing;

use crate::demand::{AskedPath, AskedPaths, Demand, SizedPath, SizedPaths};
use eon_base::name::Name;
use flex_grid::band::Band;
use flex_grid::slot::Slot;
use leg_state::{Leg, Path};
use net_graph::{Net, RiskSet};
use net_setup::NetSetup;
use reach_table::table::need;
use reply_text::Reply;

// How many times 12.5 GHz wide the slot is that the rate needs over the path; None where no format reaches so far.
fn width(setup: &NetSetup, demand: &Demand, path: &AskedPath) -> Option<u16>
    requires rate { IsTrue (is_rate demand.now.rate) }
    ensures { result ≡ legal.need_of setup.now demand.now.rate path.now.route.km }
{
    need(&setup.table, demand.rate, path.route.km())
}

// The path with the width of its slot, or the reply where no format reaches so far.
fn sized_path(setup: &NetSetup, demand: &Demand, path: AskedPath) -> Result<SizedPath, Reply>
    requires in_range { IsTrue (is_setup setup.now) }
    requires rate { IsTrue (is_rate demand.now.rate) }
    ensures fault { option_map reply_told (result_err result) ≡ placing.reach_fault_of setup.now demand.now path }
    ensures sized { IfOk result (λ s. s ≡ placing.sized setup.now demand.now path) }
    ensures wide { IfOk result (λ s. 1 ≤ s.m) }
{
    match width(setup, demand, &path) {
        Some(m) => Ok(SizedPath { path, m }),
        None => Err(Reply::Reach { part: path.part }),
    }
}

// The same of the backup path, where there is one.
fn sized_back(
    setup: &NetSetup,
    demand: &Demand,
    back: Option<AskedPath>,
) -> Result<Option<SizedPath>, Reply>
    requires in_range { IsTrue (is_setup setup.now) }
    requires rate { IsTrue (is_rate demand.now.rate) }
    ensures fault { option_map reply_told (result_err result) ≡ option_and_then (placing.reach_fault_of setup.now demand.now) back }
    ensures sized { IfOk result (λ b. b ≡ option_map (placing.sized setup.now demand.now) back) }
    ensures wide { IfOk result (λ b. IfSome b (λ s. 1 ≤ s.m)) }
{
    match back {
        Some(path) => Ok(Some(sized_path(setup, demand, path)?)),
        None => Ok(None),
    }
}

// The paths with the widths of their slots, or the reply for the first that no format reaches.
fn sized_paths(setup: &NetSetup, demand: &Demand, paths: AskedPaths) -> Result<SizedPaths, Reply>
    requires in_range { IsTrue (is_setup setup.now) }
    requires rate { IsTrue (is_rate demand.now.rate) }
    ensures fault { option_map reply_told (result_err result) ≡ placing.first_fault (placing.reach_fault_of setup.now demand.now) paths.work paths.back }
    ensures sized { IfOk result (λ s. s ≡ placing.sized_paths setup.now demand.now paths) }
    ensures wide { IfOk result placing.AreWide }
{
    let work = sized_path(setup, demand, paths.work)?;
    let back = sized_back(setup, demand, paths.back)?;
    Ok(SizedPaths { work, back })
}

// The slot with this centre and width, where it lies in the band.
fn slot_within(band: &Band, n: i16, m: u16) -> Option<Slot>
    requires grid { IsTrue (is_band band.now) }
    requires wide { 1 ≤ m }
    ensures { result ≡ placing.slot_in_band band.now n m }
{
    match Slot::make(n, m) {
        Some(slot) => band.within(&slot.units()).then_some(slot),
        None => None,
    }
}

// The slot of the path, where it lies in the band.
fn slot_of(band: &Band, sized: &SizedPath) -> Option<Slot>
    requires grid { IsTrue (is_band band.now) }
    requires wide { 1 ≤ sized.now.m }
    ensures { result ≡ placing.slot_in_band band.now sized.now.path.n sized.now.m }
{
    slot_within(band, sized.path.n, sized.m)
}

// The path on its slot, or the reply where that does not lie in the band.
fn placed_path(band: &Band, sized: SizedPath) -> Result<Path, Reply>
    requires grid { IsTrue (is_band band.now) }
    requires wide { 1 ≤ sized.m }
    ensures fault { option_map reply_told (result_err result) ≡ placing.band_fault_of band.now sized }
    ensures path { IfOk result (λ p. p ≡ placing.path_of sized) }
{
    let slot = slot_of(band, &sized);
    let path = sized.path;
    match slot {
        Some(slot) => Ok(Path {
            route: path.route,
            slot,
        }),
        None => Err(Reply::Band { part: path.part }),
    }
}

// The same of the backup path, where there is one.
fn placed_back(band: &Band, back: Option<SizedPath>) -> Result<Option<Path>, Reply>
    requires grid { IsTrue (is_band band.now) }
    requires wide { IfSome back (λ s. 1 ≤ s.m) }
    ensures fault { option_map reply_told (result_err result) ≡ option_and_then (placing.band_fault_of band.now) back }
    ensures path { IfOk result (λ b. b ≡ option_map placing.path_of back) }
{
    match back {
        Some(path) => Ok(Some(placed_path(band, path)?)),
        None => Ok(None),
    }
}

// The leg on these paths, or the reply for the first whose slot does not lie in the band.
fn placed_leg(band: &Band, paths: SizedPaths) -> Result<Leg, Reply>
    requires grid { IsTrue (is_band band.now) }
    requires wide { placing.AreWide paths }
    ensures fault { option_map reply_told (result_err result) ≡ placing.first_fault (placing.band_fault_of band.now) paths.work paths.back }
    ensures leg { IfOk result (λ l. l ≡ placing.leg_of paths) }
{
    let work = placed_path(band, paths.work)?;
    let back = placed_back(band, paths.back)?;
    Ok(Leg {
        work,
        to: None,
        back,
    })
}

// The lesser of a name and another one, if there is one.
fn lesser(other: Option<Name>, name: Name) -> Name
    ensures { result ≡ placing.lesser other name }
{
    match other {
        Some(least) => { if name < least { name } else { least } }
        None => name,
    }
}

// The lesser of the least name so far and that of this group, where it is in both sets.
fn least_with(net: &Net, a: &RiskSet, b: &RiskSet, risk: u16, least: Option<Name>) -> Option<Name>
    requires known { risk < length net.now.fibres + length net.now.groups }
    requires byte { risk < 256 }
    ensures { result ≡ placing.least_with net.now a.now b.now risk least }
{
    if !a.has(risk) {
        return least;
    }
    if !b.has(risk) {
        return least;
    }
    Some(lesser(least, net.risk_name(risk)))
}

// The least name among the groups that are in both sets; None where there is none.
fn least_shared(net: &Net, a: &RiskSet, b: &RiskSet) -> Option<Name>
    requires known { (i : ℕ) → IsTrue (has_member a.now i) → i < length net.now.fibres + length net.now.groups }
    ensures { result ≡ least_name (map (risk_name net.now) (common_members a.now b.now)) }
{
    let count = u16::from(net.fibres()) + u16::from(net.groups());
    let mut least = None;
    for risk in 0..count {
        least = least_with(net, a, b, risk, least);
    }
    least
}

// The reply for the least group that both paths have.
fn risk_between(net: &Net, paths: &SizedPaths) -> Option<Reply>
    requires known { (i : ℕ) → IsTrue (has_member paths.now.work.path.route.risk i) → i < length net.now.fibres + length net.now.groups }
    ensures { option_map reply_told result ≡ placing.sized_risk net.now paths.now }
{
    let back = paths.back.as_ref()?;
    match least_shared(net, &paths.work.path.route.risk(), &back.path.route.risk()) {
        Some(name) => Some(Reply::Risk { name }),
        None => None,
    }
}

/// The leg that is asked for by these paths, which are routes; or the reply for the first cause that lies in them:
/// reach, a common group, or the band.
pub fn asked_leg(setup: &NetSetup, demand: &Demand, paths: AskedPaths) -> Result<Leg, Reply>
    requires in_range { IsTrue (is_setup setup.now) }
    requires rate { IsTrue (is_rate demand.now.rate) }
    requires known { (i : ℕ) → IsTrue (has_member paths.work.route.risk i) → i < length setup.now.network.fibres + length setup.now.network.groups }
    ensures fault { option_map reply_told (result_err result) ≡ placing.fault_of setup.now demand.now paths }
    ensures leg { IfOk result (λ l. l ≡ step.asked_leg setup.now demand.now paths.work paths.back) }
{
    let sized = sized_paths(setup, demand, paths)?;
    if let Some(reply) = risk_between(&setup.net, &sized) {
        return Err(reply);
    }
    placed_leg(&setup.band, sized)
}
