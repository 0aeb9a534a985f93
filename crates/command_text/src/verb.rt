//! The first word of a command line.
ghost use Rattle.std.specs.Prelude.{◌≡◌};
ghost use Rattle.command_text.specs.Lines.{verb_word, verb_among, verb_at};
ghost use Rattle.command_text.specs.Given.{Gives};

use crate::part::{Stuck, after};

/// What a command line asks for.
#[derive(Clone, Copy, Debug, PartialEq, Eq)]
pub enum Verb {
    Place,
    Admit,
    Release,
    Push,
    Make,
    Finish,
    Back,
    Refit,
    Compact,
    Drill,
    Routes,
    Show,
    List,
    Map,
    Stats,
    Report,
    Quit,
}

const VERBS: [Verb; 17] = [
    Verb::Place,
    Verb::Admit,
    Verb::Release,
    Verb::Push,
    Verb::Make,
    Verb::Finish,
    Verb::Back,
    Verb::Refit,
    Verb::Compact,
    Verb::Drill,
    Verb::Routes,
    Verb::Show,
    Verb::List,
    Verb::Map,
    Verb::Stats,
    Verb::Report,
    Verb::Quit,
];

impl Verb {
    /// The word of the verb.
    pub fn word(self) -> &'static [u8]
        ensures { result.now ≡ verb_word self }
    {
        match self {
            Verb::Place => b"place",
            Verb::Admit => b"admit",
            Verb::Release => b"release",
            Verb::Push => b"push",
            Verb::Make => b"make",
            Verb::Finish => b"finish",
            Verb::Back => b"back",
            Verb::Refit => b"refit",
            Verb::Compact => b"compact",
            Verb::Drill => b"drill",
            Verb::Routes => b"routes",
            Verb::Show => b"show",
            Verb::List => b"list",
            Verb::Map => b"map",
            Verb::Stats => b"stats",
            Verb::Report => b"report",
            Verb::Quit => b"quit",
        }
    }
}

// The verb among these whose word stands at the front; else the place where the word that goes farthest
// leaves off, or the one with so many bytes left.
fn verb_among<'a>(left: usize, verbs: &[Verb], bytes: &'a [u8]) -> Result<(Verb, &'a [u8]), Stuck>
    ensures { Gives (λ x. (x.0, x.1.now)) result (verb_among left verbs.now bytes.now) }
{
    let mut left = left;
    for verb in verbs {
        match after(verb.word(), bytes) {
            Ok(rest) => return Ok((*verb, rest)),
            Err(stuck) => left = left.min(stuck.left),
        }
    }
    Err(Stuck { left })
}

/// The verb whose word stands at the front; else the place where the word that goes farthest leaves off.
#[tactic(auto, unfolding(crate::specs::Lines::verb_at))]
pub fn verb_at(bytes: &[u8]) -> Result<(Verb, &[u8]), Stuck>
    ensures { Gives (λ x. (x.0, x.1.now)) result (verb_at bytes.now) }
{
    verb_among(bytes.len(), &VERBS, bytes)
}
