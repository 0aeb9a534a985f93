//! Reading the bytes of an event.
ghost use Rattle.std.specs.Prelude.{◌≡◌, ◌+◌, ◌≤◌, IfOk, IsTrue};
ghost use Rattle.std.specs.Result.{result_err};
ghost use Rattle.std.specs.Option.{option_map};
ghost use Rattle.eon_model.specs.EventText.{is_event, event_text};
ghost use Rattle.eon_model.specs.EventFault.{event_fault};
ghost use Rattle.journal_record.specs.Reading.{path_at, back_at, leg_at, enter_at, make_at, fields_at, event_read};
ghost use Rattle.journal_record.specs.Told.{path_told, leg_told, enter_told, event_told};
ghost use Rattle.journal_record.specs.Given.{Leaves, Gives, fault_told};

use crate::event::{EnterText, Event, LegText, PathText};
use crate::fault::EventFault;
use crate::fields::Fields;
use eon_model::Class;

#[tactic(auto, unfolding(crate::specs::Reading::path_at))]
fn path_at(fields: &mut Fields) -> Result<PathText, EventFault>
    requires { fields.old.at ≤ 800 }
    ensures value { Leaves path_told result fields.new.at fields.new.rest.now (path_at fields.old.at fields.old.rest.now) }
    ensures near { IfOk result (λ x. fields.new.at ≤ fields.old.at + 68) }
{
    let count = fields.count()?;
    let fibres = fields.fibres(count)?;
    let slot = fields.slot()?;
    Ok(PathText { fibres, slot })
}

// The backup path, which stands there exactly where the class is protected.
#[tactic(auto, unfolding(crate::specs::Reading::back_at))]
fn back_at(class: Class, fields: &mut Fields) -> Result<Option<PathText>, EventFault>
    requires { fields.old.at ≤ 800 }
    ensures { Leaves (option_map path_told) result fields.new.at fields.new.rest.now (back_at class fields.old.at fields.old.rest.now) }
{
    match class {
        Class::Bare => Ok(None),
        Class::Shared | Class::Dual => {
            let back = path_at(fields)?;
            Ok(Some(back))
        }
    }
}

#[tactic(auto, unfolding(crate::specs::Reading::leg_at))]
fn leg_at(class: Class, fields: &mut Fields) -> Result<LegText, EventFault>
    requires { fields.old.at ≤ 700 }
    ensures { Leaves leg_told result fields.new.at fields.new.rest.now (leg_at class fields.old.at fields.old.rest.now) }
{
    let work = path_at(fields)?;
    let back = back_at(class, fields)?;
    Ok(LegText { work, back })
}

#[tactic(auto, unfolding(crate::specs::Reading::enter_at))]
fn enter_at(fields: &mut Fields) -> Result<EnterText, EventFault>
    requires { fields.old.at ≤ 500 }
    ensures { Leaves enter_told result fields.new.at fields.new.rest.now (enter_at fields.old.at fields.old.rest.now) }
{
    let name = fields.name()?;
    let src = fields.node()?;
    let dst = fields.node()?;
    let rate = fields.rate()?;
    let class = fields.class()?;
    let leg = leg_at(class, fields)?;
    Ok(EnterText {
        name,
        src,
        dst,
        rate,
        class,
        leg,
    })
}

#[tactic(auto, unfolding(crate::specs::Reading::make_at))]
fn make_at(fields: &mut Fields) -> Result<Event, EventFault>
    requires { fields.old.at ≤ 500 }
    ensures { Leaves event_told result fields.new.at fields.new.rest.now (make_at fields.old.at fields.old.rest.now) }
{
    let name = fields.name()?;
    let class = fields.class()?;
    let leg = leg_at(class, fields)?;
    Ok(Event::Make { name, class, leg })
}

// The event of this kind, whose fields begin here.
#[tactic(auto, unfolding(crate::specs::Reading::fields_at, crate::specs::Reading::service_at, crate::specs::Reading::named_at, crate::specs::Reading::moved_at, crate::specs::Reading::digest_at))]
fn fields_at(kind: u8, fields: &mut Fields) -> Result<Event, EventFault>
    requires { fields.old.at ≤ 500 }
    ensures { Leaves event_told result fields.new.at fields.new.rest.now (fields_at kind fields.old.at fields.old.rest.now) }
{
    match kind {
        1 => {
            let service = enter_at(fields)?;
            Ok(Event::Enter { service })
        }
        2 => {
            let name = fields.name()?;
            Ok(Event::Leave { name })
        }
        3 => {
            let name = fields.name()?;
            let to = fields.centre()?;
            Ok(Event::Push { name, to })
        }
        4 => {
            let name = fields.name()?;
            Ok(Event::Finish { name })
        }
        5 => {
            let name = fields.name()?;
            Ok(Event::Back { name })
        }
        6 => make_at(fields),
        7 => {
            let name = fields.name()?;
            let n = fields.centre()?;
            Ok(Event::Refit { name, n })
        }
        8 => {
            let digest = fields.digest()?;
            Ok(Event::Bind { digest })
        }
        _ => Err(EventFault::Kind),
    }
}

#[tactic(auto, unfolding(crate::specs::Reading::event_read))]
fn event_in(bytes: &[u8]) -> Result<Event, EventFault>
    ensures { Gives event_told result (event_read bytes.now) }
{
    let Some((kind, rest)) = bytes.split_first() else {
        return Err(EventFault::Short);
    };
    let mut fields = Fields { rest, at: 1 };
    let event = fields_at(*kind, &mut fields)?;
    if fields.rest.is_empty() {
        Ok(event)
    } else {
        Err(EventFault::Rest)
    }
}

/// The event that these bytes are, which is in range; else their first fault, in the order of the fields.
pub fn read_event(bytes: &[u8]) -> Result<Event, EventFault>
    ensures range { IfOk result (λ e. IsTrue (is_event (event_told e))) }
    ensures bytes { IfOk result (λ e. event_text (event_told e) ≡ bytes.now) }
    ensures fault { option_map fault_told (result_err result) ≡ event_fault bytes.now }
{
    event_in(bytes)
}
