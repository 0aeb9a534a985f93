//! Nothing is kept.
ghost use Rattle.std.specs.Prelude.{⊤, None};

use crate::log::{Log, Unkept};
use journal_record::Event;

/// The log of a run that is not kept: nothing is counted or written, and no event is refused.
#[derive(Clone, Copy, Debug, PartialEq, Eq)]
pub struct NoLog;

impl Log for NoLog {
    ghost left = { λ _. None };

    ghost faults = { λ _. 0 };

    ghost can_keep = { λ _. ⊤ };

    ghost keeps = { λ _ _ _ _. ⊤ };

    fn keep(&mut self, _event: &Event) -> Result<(), Unkept> {
        Ok(())
    }

    ghost keeps_none = { λ _. tt };

    ghost keeps_more = { λ _ _ _ _ _ _ _ _. tt };
}
