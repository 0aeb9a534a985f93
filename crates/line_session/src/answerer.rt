//! What answers one line.
ghost use Rattle.std.specs.Prelude.{◌≡◌, ◌++◌, ℕ, List, [], Bool, Option, None, OnOk};
ghost use Rattle.eon_outside.specs.Held.{given_since};
ghost use Rattle.line_session.specs.Answering.{Answering, AnswersLine, IsLawful, StandsBehind};

use eon_outside::Sink;

/// Whether the run goes on behind a line.
#[derive(Clone, Copy, Debug, PartialEq, Eq)]
pub enum Flow {
    /// It goes on.
    On,
    /// The line was `quit`.
    Ended,
}

/// Why a line was not answered whole.
#[derive(Clone, Copy, Debug, PartialEq, Eq)]
pub enum Stopped {
    /// A write failed. A part of the answer was given, and the answer was carried out or not.
    Output,
    /// A call of the disk failed. None of the answer was given; whether it was carried out is in doubt.
    Disk,
}

/// What answers the lines of a stream, one after the other.
///
/// Contracts see of it how lines are answered (`by`, which never changes while it answers: `setting` is what it depends on), and
/// how it stands between two lines (`place`). `went` says of two of its moments that these answers were carried out from the one
/// to the other, and then perhaps one more that was carried out or not; `went_none` and `went_more` carry it over a whole run.
/// `ready` holds while no call of its own failed. Where it is ready it stands `well`, and then every line has an answer.
pub trait Answerer {
    ghost Setting: { Type 0 };

    ghost Place: { Type 0 };

    ghost Said: { Type 0 };

    ghost by: { Setting → Answering Place Said };

    ghost well: { Setting → Place → Type 0 };

    ghost setting: { Self → Setting };

    ghost place: { Self → Place };

    ghost ready: { Self → Type 0 };

    ghost went: { Self → Self → List Said → Option Said → Type 0 };

    /// Answers one line, without its byte 10: makes the change that it asks for, and gives the reply to `out`, or holds it back in
    /// `held` behind what is held there. Of a line of more than 4,096 bytes it may be given the first 4,097 alone. Before a change
    /// is kept, all that is held back is given.
    fn answer<K: Sink>(
        &mut self,
        line: &[u8],
        out: &mut K,
        held: &mut Vec<u8>,
    ) -> Result<Flow, Stopped>
        requires ready { ready self.old }
        ensures ready { OnOk result (ready self.new) }
        ensures setting { setting self.new ≡ setting self.old }
        ensures told { AnswersLine (by (setting self.old)) (went self.old self.new) (place self.old) (place self.new) line.now
            (given_since (K.given out.old) (K.given out.old) held.old.items)
            (given_since (K.given out.old) (K.given out.new) held.new.items) (K.given out.new) result }
        ensures stands { StandsBehind result (K.standing out.old) (K.standing out.new) };

    /// At one moment nothing was carried out.
    ghost went_none: { (it : Self) → went it it [] None };

    /// What was carried out up to a moment and from it on was carried out in all.
    ghost went_more: { (before here now : Self) (first more : List Said) (next : Option Said) → went before here first None
        → went here now more next → went before now (first ++ more) next };

    /// What is asked of the way in which lines are answered.
    ghost lawful: { (it : Self) → ready it → IsLawful (by (setting it)) (well (setting it)) (place it) };
}
