//! The lines of a stream over a list of services.
ghost use Rattle.std.specs.Prelude.{◌≡◌, refl, ⊤, None};
ghost use Rattle.eon_model.specs.Legal.{Legal};
ghost use Rattle.eon_model.specs.RoomReplies as said;
ghost use Rattle.eon_outside.specs.Faults.{Stands};
ghost use Rattle.eon_outside.specs.Held.{given_since};
ghost use Rattle.room_lines.specs.Seen.{RoomsSeen};
ghost use Rattle.room_lines.specs.Setting.{room_by, GivesAnswer};
ghost use Rattle.room_lines.specs.SettingLaws.{room_lawful};

use crate::answering::answer_room;
use crate::rooms::Rooms;
use eon_outside::{Buffered, Failed, Sink, Start};
use line_session::{Answerer, Flow, Stopped};
use std::marker::Brand;

// Answers one line, and holds the reply back behind what is held while there is room for it.
fn answer_behind<K: Sink, S: Start>(
    rooms: &Rooms,
    line: &[u8],
    out: &mut K,
    held: &mut Vec<u8>,
) -> Result<Flow, Failed>
    requires from { S.bytes ≡ K.given out.old }
    ensures told { GivesAnswer rooms.now line.now (given_since S.bytes (K.given out.old) held.old.items) (given_since S.bytes (K.given out.new) held.new.items) result }
    ensures stands { Stands (K.standing out.old) (K.standing out.new) result }
{
    let mut replies: Buffered<'_, K, S> = Buffered::new(out, held);
    answer_room(rooms, line, &mut replies)
}

/// Each line is answered as in the mode that asks for room. The services stay as they are, and no answer is ever in doubt.
impl<'a> Answerer for Rooms<'a> {
    ghost Setting = { RoomsSeen };

    ghost Place = { ⊤ };

    ghost Said = { said.RoomReply };

    ghost by = { room_by };

    ghost well = { λ _ _. ⊤ };

    ghost setting = { λ r. r };

    ghost place = { λ _. tt };

    ghost ready = { λ r. Legal r.setup r.state };

    ghost went = { λ _ _ _ doubt. doubt ≡ None };

    fn answer<K: Sink>(
        &mut self,
        line: &[u8],
        out: &mut K,
        held: &mut Vec<u8>,
    ) -> Result<Flow, Stopped> {
        match answer_behind::<K, Brand>(self, line, out, held) {
            Ok(flow) => Ok(flow),
            Err(Failed) => Err(Stopped::Output),
        }
    }

    ghost went_none = { λ _. refl };

    ghost went_more = { λ _ _ _ _ _ _ _ two. two };

    ghost lawful = { λ r legal. room_lawful r legal };
}
