//! The services that are asked about.
ghost use Rattle.std.specs.Prelude.{◌≡◌, IsTrue, IfOk};
ghost use Rattle.eon_model.specs.CommandText.{is_rate};
ghost use Rattle.eon_model.specs.Legal.{Legal};
ghost use Rattle.eon_model.specs.NetworkText.{is_setup};
ghost use Rattle.eon_model.specs.RoomAnswers.{RepliesTo};
ghost use Rattle.eon_model.specs.RoomCommands as asked;
ghost use Rattle.make_room.specs.Rooms.{room_told};
ghost use Rattle.room_lines.specs.Replied.{reply_told, TellsRoom};
ghost use Rattle.room_lines.specs.Told.{question_told};

use crate::asking::asked_block;
use crate::command::Question;
use crate::reply::RoomReply;
use leg_state::{Path, Services};
use make_room::{Room, room_for};
use net_setup::NetSetup;
use std::alloc::{AllocError, Global};
use std::marker::Model;

/// A network and the services that are live on it. They stay as they are. A contract sees the setup and the list.
#[derive(Drop)]
pub struct Rooms<'a> {
    setup: &'a NetSetup,
    services: &'a Services,
    alloc: Global,
}

impl<'a> Model for Rooms<'a> {
    ghost use Rattle.room_lines.specs.Seen.{RoomsSeen, seen_code, IsKept};

    ghost Value = { RoomsSeen };

    ghost coded = { seen_code };

    ghost view = { λ r. record { setup = r.setup.now; state = r.services.now.list } };

    ghost invariant = { λ r. IsKept r.setup.now r.services.now.list };
}

// The reply that it is.
fn said(room: Room) -> RoomReply
    ensures { reply_told result ≡ room_told room }
{
    match room {
        Room::Busy { name } => RoomReply::Busy { name },
        Room::Over { name } => RoomReply::Over { name },
        Room::At { name } => RoomReply::At { name },
        Room::Moves(shifts) => RoomReply::Moves(shifts),
    }
}

// What is answered for the block.
fn block_reply(
    alloc: Global,
    setup: &NetSetup,
    services: &Services,
    block: &Path,
) -> Result<RoomReply, AllocError>
    ensures { IfOk result (TellsRoom setup.now.band services.now.list block.now) }
{
    let room = room_for(alloc, services, &setup.band, block)?;
    Ok(said(room))
}

// The reply to a question.
fn question_reply(
    alloc: Global,
    setup: &NetSetup,
    services: &Services,
    question: &Question,
) -> Result<RoomReply, AllocError>
    requires in_range { IsTrue (is_setup setup.now) }
    requires legal { Legal setup.now services.now.list }
    requires rate { IsTrue (is_rate question.now.rate) }
    ensures { IfOk result (λ r. RepliesTo setup.now services.now.list (asked.RoomCommand.Room (question_told question.now)) (reply_told r)) }
{
    match asked_block(alloc, setup, question)? {
        Ok(block) => block_reply(alloc, setup, services, &block),
        Err(reply) => Ok(reply),
    }
}

impl<'a> Rooms<'a> {
    /// These services, which are legal on the network.
    pub fn over(alloc: Global, setup: &'a NetSetup, services: &'a Services) -> Rooms<'a>
        requires in_range { IsTrue (is_setup setup.now) }
        requires legal { Legal setup.now services.now.list }
        ensures setup { result.setup ≡ setup.now }
        ensures state { result.state ≡ services.now.list }
    {
        Rooms {
            setup,
            services,
            alloc,
        }
    }

    /// What is answered to the question: the first of its faults, as `place` answers it; `Busy` where a service moves; what keeps
    /// the block from becoming free; or the moves by which it does. Want of memory is the only failure.
    pub fn room(&self, question: &Question) -> Result<RoomReply, AllocError>
        requires { IsTrue (is_rate question.now.rate) }
        ensures { IfOk result (λ r. RepliesTo self.now.setup self.now.state (asked.RoomCommand.Room (question_told question.now)) (reply_told r)) }
    {
        question_reply(self.alloc, self.setup, self.services, question)
    }
}
