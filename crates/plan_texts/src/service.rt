//! The line of a service.
ghost use Rattle.std.specs.Prelude.{◌≡◌, drop, IfSome, option_map, option_and_then};
ghost use Rattle.eon_model.specs.PlanTexts as model;
ghost use Rattle.command_text.specs.Parts.{fibre_names_of};
ghost use Rattle.net_file.specs.Readings.{first_read};
ghost use Rattle.plan_texts.specs.Fields.{is_first};
ghost use Rattle.plan_texts.specs.Services.{class_of, demand_at, behind_demand, path_at, behind_path, back_at, behind_back, leg_at, behind_leg, target_at, behind_target, next_at, service_at};
ghost use Rattle.plan_texts.specs.ServiceTold.{service_told};

use crate::field::{centre_field, number_field, word_field};
use command_text::FibreNames;
use eon_base::name::Name;
use eon_model::Class;
use net_file::Fields;

/// The greatest rate, in Gbit/s.
const MOST_RATE: u16 = 60_000;

/// The greatest width, in units of 12.5 GHz.
const MOST_WIDTH: u16 = 512;

/// A path: the names of its fibres, its centre in units of 6.25 GHz from 193.1 THz, and its width in units of 12.5 GHz.
#[derive(Drop)]
pub struct PathLine<'a> {
    pub fibres: FibreNames<'a>,
    pub n: i16,
    pub m: u16,
}

/// A working path, and a backup where there is one.
#[derive(Drop)]
pub struct LegLine<'a> {
    pub work: PathLine<'a>,
    pub back: Option<PathLine<'a>>,
}

/// What a service is asked to carry: between which nodes, how many Gbit/s, and in which class.
#[derive(Clone, Copy, Debug)]
pub struct Demand {
    pub name: Name,
    pub src: Name,
    pub dst: Name,
    pub rate: u16,
    pub class: Class,
}

/// A service, with the centre that it drifts to and the new leg that it is making. Lists of fibres lie in the line.
#[derive(Drop)]
pub struct ServiceLine<'a> {
    pub demand: Demand,
    pub leg: LegLine<'a>,
    pub to: Option<i16>,
    pub next: Option<LegLine<'a>>,
}

// Whether the next field is this word. The cursor stays.
fn is_next(fields: &Fields<'_>, word: &[u8]) -> bool
    ensures { result ≡ is_first word.now fields.now }
{
    let mut ahead = fields.ahead();
    word_field(&mut ahead, word)
}

// The class that the bytes spell.
fn class_of(field: &[u8]) -> Option<Class>
    ensures { result ≡ class_of field.now }
{
    if field == b"bare".as_slice() {
        Some(Class::Bare)
    } else if field == b"shared".as_slice() {
        Some(Class::Shared)
    } else if field == b"dual".as_slice() {
        Some(Class::Dual)
    } else {
        None
    }
}

// The next field as a class.
fn class_field(fields: &mut Fields<'_>) -> Option<Class>
    ensures value { result ≡ first_read class_of fields.old }
    ensures after { fields.new ≡ drop 1 fields.old }
{
    let field = fields.next_field()?;
    class_of(field)
}

// The next field as a list of fibres.
fn fibres_field<'a>(fields: &mut Fields<'a>) -> Option<FibreNames<'a>>
    ensures value { result ≡ first_read fibre_names_of fields.old }
    ensures after { fields.new ≡ drop 1 fields.old }
{
    let field = fields.next_field()?;
    FibreNames::read(field)
}

// The word of the line, and what the service carries.
#[tactic(auto, unfolding(crate::specs::Services::demand_at))]
fn demand_fields(fields: &mut Fields<'_>) -> Option<Demand>
    ensures value { result ≡ demand_at fields.old }
    ensures after { IfSome result (λ _. fields.new ≡ behind_demand fields.old) }
{
    if !word_field(fields, b"service") {
        return None;
    }
    let name = fields.name()?;
    let src = fields.name()?;
    let dst = fields.name()?;
    let rate = number_field(fields, 1, MOST_RATE)?;
    let class = class_field(fields)?;
    Some(Demand {
        name,
        src,
        dst,
        rate,
        class,
    })
}

// A path.
#[tactic(auto, unfolding(crate::specs::Services::path_at))]
fn path_fields<'a>(fields: &mut Fields<'a>) -> Option<PathLine<'a>>
    ensures value { result ≡ path_at fields.old }
    ensures after { IfSome result (λ _. fields.new ≡ behind_path fields.old) }
{
    let fibres = fibres_field(fields)?;
    let n = centre_field(fields)?;
    let m = number_field(fields, 1, MOST_WIDTH)?;
    Some(PathLine { fibres, n, m })
}

// A backup, where one stands there.
#[tactic(auto, unfolding(crate::specs::Services::back_at))]
fn back_fields<'a>(fields: &mut Fields<'a>) -> Option<Option<PathLine<'a>>>
    ensures value { result ≡ back_at fields.old }
    ensures after { IfSome result (λ back. fields.new ≡ behind_back back fields.old) }
{
    if !is_next(fields, b"b") {
        return Some(None);
    }
    let _ = fields.next_field();
    let back = path_fields(fields)?;
    Some(Some(back))
}

// A leg.
#[tactic(auto, unfolding(crate::specs::Services::leg_at))]
fn leg_fields<'a>(fields: &mut Fields<'a>) -> Option<LegLine<'a>>
    ensures value { result ≡ leg_at fields.old }
    ensures after { IfSome result (λ leg. fields.new ≡ behind_leg leg fields.old) }
{
    if !word_field(fields, b"w") {
        return None;
    }
    let work = path_fields(fields)?;
    let back = back_fields(fields)?;
    Some(LegLine { work, back })
}

// A centre to drift to, where one stands there.
#[tactic(auto, unfolding(crate::specs::Services::target_at))]
fn target_field(fields: &mut Fields<'_>) -> Option<Option<i16>>
    ensures value { result ≡ target_at fields.old }
    ensures after { IfSome result (λ to. fields.new ≡ behind_target to fields.old) }
{
    if !is_next(fields, b"to") {
        return Some(None);
    }
    let _ = fields.next_field();
    let to = centre_field(fields)?;
    Some(Some(to))
}

// A new leg, where the line goes on, and no more.
#[tactic(auto, unfolding(crate::specs::Services::next_at))]
fn next_fields<'a>(fields: &mut Fields<'a>) -> Option<Option<LegLine<'a>>>
    ensures { result ≡ next_at fields.old }
{
    if fields.is_done() {
        return Some(None);
    }
    if !word_field(fields, b"and") {
        return None;
    }
    let leg = leg_fields(fields)?;
    if fields.is_done() {
        Some(Some(leg))
    } else {
        None
    }
}

// The service that the fields are.
#[tactic(auto, unfolding(crate::specs::Services::service_at))]
fn service_fields<'a>(fields: &mut Fields<'a>) -> Option<ServiceLine<'a>>
    ensures { result ≡ service_at fields.old }
{
    let demand = demand_fields(fields)?;
    let leg = leg_fields(fields)?;
    let to = target_field(fields)?;
    let next = next_fields(fields)?;
    Some(ServiceLine {
        demand,
        leg,
        to,
        next,
    })
}

/// The service of a line, given without its byte 10; None exactly where it is the line of none.
pub fn read_service(line: &[u8]) -> Option<ServiceLine<'_>>
    ensures { option_map service_told result ≡ model.service_told line.now }
{
    let mut fields = Fields::new(line);
    service_fields(&mut fields)
}
