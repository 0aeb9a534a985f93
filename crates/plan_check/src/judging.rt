//! The first bad move of a plan.
ghost use Rattle.std.specs.Prelude.{◌≡◌, ◌<◌, ◌≤◌, ◌&&◌, true, [], nat_lt, length, option_map, slice_index_or, IsTrue, Option, Some};
ghost use Rattle.std.specs.List.{list_all, list_any};
ghost use Rattle.std.specs.Ordering.{int_eq};
ghost use Rattle.eon_model.specs.Names.{is_name, same_name};
ghost use Rattle.eon_model.specs.CommandText.{is_centre};
ghost use Rattle.eon_model.specs.Events as events;
ghost use Rattle.eon_model.specs.Events.{apply};
ghost use Rattle.eon_model.specs.Replay.{can_follow};
ghost use Rattle.journal_record.specs.Told.{event_told};
ghost use Rattle.eon_model.specs.Places.{AtRest};
ghost use Rattle.eon_model.specs.Step as step;
ghost use Rattle.eon_model.specs.PlanTexts.{is_move_line};
ghost use Rattle.eon_model.specs.PlanCheck.{batches_ascend, first_bad};
ghost use Rattle.plan_texts.specs.Told.{move_told, moves_told};
ghost use Rattle.plan_check.specs.Told.{bad_told, bad_move_told};
ghost use Rattle.plan_check.specs.Judged.{refusal_of, bad_now, is_due};

use crate::bad::{Bad, BadMove};
use eon_base::name::Name;
use leg_state::Service;
use plan_core::{Core, Event};
use plan_texts::Move;
use push_rule::{Push, push};

// Whether the move is of the service of this name.
fn is_of(earlier: &Move, name: &Name) -> bool
    ensures { result ≡ same_name earlier.now.name name.now }
{
    earlier.name == *name
}

// Whether one of the moves is.
fn is_moved(earlier: &[Move], name: &Name) -> bool
    ensures { result ≡ list_any (λ o. same_name o.name name.now) earlier.now }
{
    earlier.iter().any(|other| is_of(other, name))
}

// Whether the two are one centre.
fn is_same(a: i16, b: i16) -> bool
    ensures { result ≡ int_eq a b }
{
    a == b
}

// Where the channel of the service stands.
fn centre_of(service: &Service) -> i16
    ensures { result ≡ service.now.leg.work.slot.n }
{
    service.leg.work.slot.n()
}

// Where the move begins.
fn from_of(next: &Move) -> i16
    ensures { result ≡ next.now.from }
{
    next.from
}

// Where the move ends.
fn to_of(next: &Move) -> i16
    ensures { result ≡ next.now.to }
{
    next.to
}

// Whether the channel of the service stands where the move begins.
fn stands(service: &Service, next: &Move) -> bool
    ensures { result ≡ int_eq next.now.from service.now.leg.work.slot.n }
{
    is_same(from_of(next), centre_of(service))
}

// Whether the move ends where it begins.
fn stays(next: &Move) -> bool
    ensures { result ≡ int_eq next.now.to next.now.from }
{
    is_same(to_of(next), from_of(next))
}

// Why the push of the move is refused, where it leaves the band or is not clear of another service.
fn refusal(core: &Core, next: &Move) -> Option<Bad>
    ensures { option_map bad_told result ≡ refusal_of (step.push core.now.setup core.now.state next.now.name next.now.to) }
{
    match push(core.services(), &core.setup().band, &next.name, to_of(next)) {
        Push::Band => Some(Bad::Band),
        Push::Clash { name } => Some(Bad::Clash { name }),
        Push::Unknown => None,
        Push::Busy => None,
        Push::Same => None,
        Push::Done { .. } => None,
    }
}

// Why the move is bad after these, in the state that it is judged in.
fn bad_of(core: &Core, earlier: &[Move], next: &Move) -> Option<Bad>
    ensures { option_map bad_told result ≡ bad_now core.now.setup core.now.state (moves_told earlier.now) (move_told next.now) }
{
    let Some(service) = core.services().find(&next.name) else {
        return Some(Bad::Unknown);
    };
    if is_moved(earlier, &next.name) {
        return Some(Bad::Twice);
    }
    if !stands(service, next) {
        return Some(Bad::From);
    }
    if stays(next) {
        return Some(Bad::Same);
    }
    refusal(core, next)
}

// The change by which the channel begins to drift.
fn push_event(next: &Move) -> Event
    ensures { event_told result ≡ events.Event.Push next.now.name next.now.to }
{
    Event::Push {
        name: next.name,
        to: to_of(next),
    }
}

// Lets the channel drift.
fn begin(core: &mut Core, next: &Move)
    requires in_range { IsTrue (is_name next.now.name && is_centre next.now.to) }
    requires follows { can_follow core.old.setup core.old.state (events.Event.Push next.now.name next.now.to) ≡ true }
    ensures setup { core.new.setup ≡ core.old.setup }
    ensures state { core.new.state ≡ apply core.old.setup.network core.old.state (events.Event.Push next.now.name next.now.to) }
{
    let event = push_event(next);
    match core.follow(&event) {
        Ok(()) => {}
        Err(_) => unreachable!(),
    }
}

// Ends the drift of the channel.
fn land(core: &mut Core, earlier: &Move)
    requires in_range { IsTrue (is_move_line (move_told earlier.now)) }
    requires follows { can_follow core.old.setup core.old.state (events.Event.Finish earlier.now.name) ≡ true }
    ensures setup { core.new.setup ≡ core.old.setup }
    ensures state { core.new.state ≡ apply core.old.setup.network core.old.state (events.Event.Finish earlier.now.name) }
{
    let event = Event::Finish { name: earlier.name };
    match core.follow(&event) {
        Ok(()) => {}
        Err(_) => unreachable!(),
    }
}

// Whether a move drifts still that has a lower batch than the one that is judged next.
fn is_due(moves: &[Move], landed: usize, at: usize) -> bool
    requires { at < length moves.now }
    ensures { result ≡ is_due (moves_told moves.now) landed at }
{
    landed < at && moves[landed].batch < moves[at].batch
}

/// The first bad move of a plan whose batches ascend, judged against the services of the machine, which are at rest. The
/// machine is left with the moves before it made.
pub fn judge(core: &mut Core, moves: &[Move]) -> Option<BadMove>
    requires rest { AtRest core.old.state }
    requires order { IsTrue (batches_ascend (moves_told moves.now)) }
    requires in_range { IsTrue (list_all is_move_line (moves_told moves.now)) }
    requires few { length moves.now ≤ 4096 }
    ensures setup { core.new.setup ≡ core.old.setup }
    ensures bad { option_map bad_move_told result ≡ first_bad core.old.setup core.old.state [] (moves_told moves.now) }
{
    let mut landed = 0;
    let mut at = 0;
    while at < moves.len() {
        // Read for what the machine keeps.
        let _ = core.setup();
        let _ = core.services();
        if is_due(moves, landed, at) {
            land(core, &moves[landed]);
            landed += 1;
        } else {
            let next = &moves[at];
            if let Some(bad) = bad_of(core, &moves[..at], next) {
                return Some(BadMove {
                    at: at as u16 + 1,
                    name: next.name,
                    bad,
                });
            }
            begin(core, next);
            at += 1;
        }
    }
    None
}
