//! The bytes of an event.
ghost use Rattle.std.specs.Prelude.{◌≡◌, ◌+◌, ◌≤◌, [], ◌∷◌, ◌++◌, length, IsTrue};
ghost use Rattle.eon_model.specs.EventText as bytes_of;
ghost use Rattle.journal_record.specs.Told.{path_told, leg_told, enter_told, event_told};

use crate::buffer::EventBuf;
use crate::event::{EnterText, Event, LegText, PathText};
use eon_base::name::Name;
use eon_model::Class;
use eon_model::journal_laws::events_are_short;
use flex_grid::slot::Slot;
use leg_state::FibreNumbers;

/// What a record has beside its event, in bytes: a gate, the length and the number.
const BESIDE_EVENT: u32 = 7;

fn put_byte(byte: u8, out: &mut EventBuf)
    requires { length out.old + 1 ≤ 177 }
    ensures { out.new ≡ out.old ++ byte ∷ [] }
{
    out.put(&[byte]);
}

fn put_name(name: &Name, out: &mut EventBuf)
    requires { length out.old + length (bytes_of.name_text name.now) ≤ 177 }
    ensures { out.new ≡ out.old ++ bytes_of.name_text name.now }
{
    let bytes = name.bytes();
    put_byte(bytes.len() as u8, out);
    out.put(bytes);
}

fn put_centre(n: i16, out: &mut EventBuf)
    requires { length out.old + 2 ≤ 177 }
    ensures { out.new ≡ out.old ++ bytes_of.signed_text n }
{
    out.put(&n.to_be_bytes());
}

fn put_slot(slot: &Slot, out: &mut EventBuf)
    requires { length out.old + 4 ≤ 177 }
    ensures { out.new ≡ out.old ++ bytes_of.slot_text slot.now }
{
    put_centre(slot.n(), out);
    out.put(&slot.m().to_be_bytes());
}

fn put_fibres(fibres: &FibreNumbers, out: &mut EventBuf)
    requires { length out.old + length fibres.now ≤ 177 }
    ensures { out.new ≡ out.old ++ fibres.now }
{
    for i in 0..fibres.len() {
        put_byte(fibres.at(i), out);
    }
}

fn put_path(path: &PathText, out: &mut EventBuf)
    requires { length out.old + length (bytes_of.path_text (path_told path.now)) ≤ 177 }
    ensures { out.new ≡ out.old ++ bytes_of.path_text (path_told path.now) }
{
    put_byte(path.fibres.len() as u8, out);
    put_fibres(&path.fibres, out);
    put_slot(&path.slot, out);
}

fn put_leg(class: Class, leg: &LegText, out: &mut EventBuf)
    requires { length out.old + length (bytes_of.leg_text class (leg_told leg.now)) ≤ 177 }
    ensures { out.new ≡ out.old ++ bytes_of.leg_text class (leg_told leg.now) }
{
    put_byte(class.flag(), out);
    put_path(&leg.work, out);
    if let Some(back) = &leg.back {
        put_path(back, out);
    }
}

fn put_service(service: &EnterText, out: &mut EventBuf)
    requires { length out.old + length (bytes_of.enter_text (enter_told service.now)) ≤ 177 }
    ensures { out.new ≡ out.old ++ bytes_of.enter_text (enter_told service.now) }
{
    put_name(&service.name, out);
    out.put(&[service.src, service.dst]);
    out.put(&service.rate.to_be_bytes());
    put_leg(service.class, &service.leg, out);
}

fn put_event(event: &Event, out: &mut EventBuf)
    requires { length out.old + length (bytes_of.event_text (event_told event.now)) ≤ 177 }
    ensures { out.new ≡ out.old ++ bytes_of.event_text (event_told event.now) }
{
    match event {
        Event::Enter { service } => {
            put_byte(1, out);
            put_service(service, out);
        }
        Event::Leave { name } => {
            put_byte(2, out);
            put_name(name, out);
        }
        Event::Push { name, to } => {
            put_byte(3, out);
            put_name(name, out);
            put_centre(*to, out);
        }
        Event::Finish { name } => {
            put_byte(4, out);
            put_name(name, out);
        }
        Event::Back { name } => {
            put_byte(5, out);
            put_name(name, out);
        }
        Event::Make { name, class, leg } => {
            put_byte(6, out);
            put_name(name, out);
            put_leg(*class, leg, out);
        }
        Event::Refit { name, n } => {
            put_byte(7, out);
            put_name(name, out);
            put_centre(*n, out);
        }
        Event::Bind { digest } => {
            put_byte(8, out);
            out.put(digest);
        }
    }
}

/// Writes the bytes of this event in place of what the buffer held, and answers how many they are. The event's
/// fields are in range.
pub fn write_event(e: &Event, out: &mut EventBuf) -> usize
    requires { IsTrue (bytes_of.is_event (event_told e.now)) }
    ensures bytes { out.new ≡ bytes_of.event_text (event_told e.now) }
    ensures count { result ≡ length (bytes_of.event_text (event_told e.now)) }
{
    events_are_short();
    out.clear();
    put_event(e, out);
    out.bytes().len()
}

/// How many bytes the event's record takes in the journal: those of the event, and 7 for the gate, the length and
/// the number. The event's fields are in range.
pub fn need(e: &Event) -> u32
    requires { IsTrue (bytes_of.is_event (event_told e.now)) }
    ensures { result ≡ bytes_of.room_for (event_told e.now) }
{
    events_are_short();
    let mut out = EventBuf::new();
    let count = write_event(e, &mut out);
    count as u32 + BESIDE_EVENT
}
