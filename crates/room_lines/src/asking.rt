//! The block that is asked for.
ghost use Rattle.std.specs.Prelude.{◌≡◌, ◌≤◌, IsTrue, IfOk};
ghost use Rattle.eon_model.specs.CommandText.{is_rate};
ghost use Rattle.eon_model.specs.Grid.{is_band};
ghost use Rattle.eon_model.specs.Legal.{need_of};
ghost use Rattle.eon_model.specs.NetworkText.{is_setup};
ghost use Rattle.room_lines.specs.Asking.{route_asked, slot_in_band, IsBlockAt, IsBlockFor};
ghost use Rattle.room_lines.specs.Told.{question_told};

use crate::command::Question;
use crate::names::{fibre_numbers, first_unknown, node_numbered};
use crate::reply::RoomReply;
use flex_grid::band::Band;
use flex_grid::slot::Slot;
use leg_state::{Path, Route};
use net_graph::Net;
use net_setup::NetSetup;
use reach_table::table::need;
use std::alloc::{AllocError, Global};

// The route of the fibres; None where they are none between the ends.
fn asked_route(alloc: Global, net: &Net, question: &Question) -> Result<Option<Route>, AllocError>
    ensures { IfOk result (λ route. route ≡ route_asked net.now (question_told question.now)) }
{
    let numbers = fibre_numbers(alloc, net, &question.fibres)?;
    let src = node_numbered(net, &question.src);
    let dst = node_numbered(net, &question.dst);
    let route = Route::make(alloc, net, src, dst, &numbers)?;
    Ok(route)
}

// The slot with this centre and width, where it lies in the band.
fn slot_within(band: &Band, n: i16, m: u16) -> Option<Slot>
    requires grid { IsTrue (is_band band.now) }
    requires wide { 1 ≤ m }
    ensures { result ≡ slot_in_band band.now n m }
{
    match Slot::make(n, m) {
        Some(slot) => band.within(&slot.units()).then_some(slot),
        None => None,
    }
}

// How many times 12.5 GHz wide the slot is that the rate needs over the route; None where no format reaches so far.
fn width(setup: &NetSetup, rate: u32, route: &Route) -> Option<u16>
    requires rate { IsTrue (is_rate rate) }
    ensures { result ≡ need_of setup.now rate route.now.km }
{
    need(&setup.table, rate, route.km())
}

// The block on this route, with a slot as wide as the rate needs; or the fault that lies in it.
fn block_on(setup: &NetSetup, rate: u32, n: i16, route: Route) -> Result<Path, RoomReply>
    requires in_range { IsTrue (is_setup setup.now) }
    requires rate { IsTrue (is_rate rate) }
    ensures { IsBlockAt setup.now rate n route result }
{
    let Some(m) = width(setup, rate, &route) else {
        return Err(RoomReply::Reach);
    };
    match slot_within(&setup.band, n, m) {
        Some(slot) => Ok(Path { route, slot }),
        None => Err(RoomReply::Band),
    }
}

/// The block that is asked for, or the first fault of the question, as `place` answers it.
pub(crate) fn asked_block(
    alloc: Global,
    setup: &NetSetup,
    question: &Question,
) -> Result<Result<Path, RoomReply>, AllocError>
    requires in_range { IsTrue (is_setup setup.now) }
    requires rate { IsTrue (is_rate question.now.rate) }
    ensures { IfOk result (IsBlockFor setup.now (question_told question.now)) }
{
    if let Some(name) = first_unknown(&setup.net, &question.src, &question.dst, &question.fibres) {
        return Ok(Err(RoomReply::Unknown { name }));
    }
    match asked_route(alloc, &setup.net, question)? {
        Some(route) => Ok(block_on(setup, question.rate, question.n, route)),
        None => Ok(Err(RoomReply::Path)),
    }
}
