//! The first word of a line.
ghost use Rattle.std.specs.Prelude.{◌≡◌};
ghost use Rattle.command_text.specs.Given.{Gives};
ghost use Rattle.room_lines.specs.Lines.{verb_word, verb_among, verb_at};

use command_text::{Stuck, after};

/// What a line asks for.
#[derive(Clone, Copy, Debug, PartialEq, Eq)]
pub enum Verb {
    Room,
    Quit,
}

const VERBS: [Verb; 2] = [Verb::Room, Verb::Quit];

impl Verb {
    /// The word of the verb.
    pub fn word(self) -> &'static [u8]
        ensures { result.now ≡ verb_word self }
    {
        match self {
            Verb::Room => b"room",
            Verb::Quit => b"quit",
        }
    }
}

// The verb among these whose word stands at the front; else the place where the word that goes farthest
// leaves off, or the one with so many bytes left.
fn verb_among<'a>(left: usize, verbs: &[Verb], bytes: &'a [u8]) -> Result<(Verb, &'a [u8]), Stuck>
    ensures { Gives (λ x. (x.0, x.1.now)) result (verb_among left verbs.now bytes.now) }
{
    let mut left = left;
    for verb in verbs {
        match after(verb.word(), bytes) {
            Ok(rest) => return Ok((*verb, rest)),
            Err(stuck) => left = left.min(stuck.left),
        }
    }
    Err(Stuck { left })
}

/// The verb whose word stands at the front; else the place where the word that goes farthest leaves off.
#[tactic(auto, unfolding(crate::specs::Lines::verb_at))]
pub fn verb_at(bytes: &[u8]) -> Result<(Verb, &[u8]), Stuck>
    ensures { Gives (λ x. (x.0, x.1.now)) result (verb_at bytes.now) }
{
    verb_among(bytes.len(), &VERBS, bytes)
}
