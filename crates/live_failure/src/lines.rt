//! The lines of a stream over a live state.
ghost use Rattle.std.specs.Prelude.{◌≡◌, refl, ⊤, ℕ, Option, None};
ghost use Rattle.eon_model.specs.LiveStep.{LiveAnswer};
ghost use Rattle.eon_outside.specs.Faults.{Stands};
ghost use Rattle.eon_outside.specs.Held.{given_since};
ghost use Rattle.live_failure.specs.Answering.{GivesAnswer};
ghost use Rattle.live_failure.specs.Setting.{LiveSetting, live_by};
ghost use Rattle.live_failure.specs.SettingLaws.{live_lawful};

use crate::answering::answer_live;
use crate::live_state::Live;
use eon_outside::{Buffered, Failed, Sink, Start};
use line_session::{Answerer, Flow, Stopped};
use std::marker::Brand;

// Answers one line, and holds the reply back behind what is held while there is room for it.
fn answer_behind<K: Sink, S: Start>(
    live: &mut Live,
    line: &[u8],
    out: &mut K,
    held: &mut Vec<u8>,
) -> Result<Flow, Failed>
    requires from { S.bytes ≡ K.given out.old }
    ensures told { GivesAnswer live.old live.new line.now (given_since S.bytes (K.given out.old) held.old.items) (given_since S.bytes (K.given out.new) held.new.items) result }
    ensures stands { Stands (K.standing out.old) (K.standing out.new) result }
{
    let mut replies: Buffered<'_, K, S> = Buffered::new(out, held);
    answer_live(live, line, &mut replies)
}

/// Each line is answered as in the live mode. It stands by the group that has failed. The services stay as they are, and no
/// answer is ever in doubt.
impl<'a> Answerer for Live<'a> {
    ghost Setting = { LiveSetting };

    ghost Place = { Option ℕ };

    ghost Said = { LiveAnswer };

    ghost by = { live_by };

    ghost well = { λ _ _. ⊤ };

    ghost setting = { λ l. record { network = l.setup.network; state = l.state } };

    ghost place = { λ l. l.failed };

    ghost ready = { λ _. ⊤ };

    ghost went = { λ _ _ _ doubt. doubt ≡ None };

    fn answer<K: Sink>(
        &mut self,
        line: &[u8],
        out: &mut K,
        held: &mut Vec<u8>,
    ) -> Result<Flow, Stopped> {
        match answer_behind::<K, Brand>(self, line, out, held) {
            Ok(flow) => Ok(flow),
            Err(Failed) => Err(Stopped::Output),
        }
    }

    ghost went_none = { λ _. refl };

    ghost went_more = { λ _ _ _ _ _ _ _ two. two };

    ghost lawful = { λ l _. live_lawful (record { network = l.setup.network; state = l.state }) l.failed };
}
