//! How many replies there were of each kind.
ghost use Rattle.std.specs.Prelude.{◌≡◌, [], ◌++◌, ◌∷◌, List};
ghost use Rattle.eon_model.specs.Answers.{Answer};
ghost use Rattle.reply_text.specs.Replied.{reply_told};
ghost use Rattle.load_summary.specs.Kinds.{IsTally, IsSmall, with_one};

use crate::kind::{Kind, kind_of};
use reply_text::Reply;

/// How many replies there were of each kind.
#[derive(Clone, Copy, Debug, PartialEq, Eq)]
pub struct Tally {
    /// Those that say that a change was made.
    pub ok: u32,
    /// Those that say that nothing fits.
    pub blocked: u32,
    /// Those that say that there is no candidate.
    pub noroute: u32,
    /// Those that say that there was no memory.
    pub memory: u32,
    /// All others.
    pub other: u32,
}

impl Tally {
    /// No reply yet.
    pub fn none() -> Tally
        ensures { IsTally result [] }
    {
        Tally {
            ok: 0,
            blocked: 0,
            noroute: 0,
            memory: 0,
            other: 0,
        }
    }

    // One more of this kind.
    fn with(self, kind: Kind) -> Tally
        requires { IsSmall self }
        ensures { result ≡ with_one kind self }
    {
        match kind {
            Kind::Done => Tally {
                ok: self.ok + 1,
                ..self
            },
            Kind::Blocked => Tally {
                blocked: self.blocked + 1,
                ..self
            },
            Kind::NoRoute => Tally {
                noroute: self.noroute + 1,
                ..self
            },
            Kind::Memory => Tally {
                memory: self.memory + 1,
                ..self
            },
            Kind::Other => Tally {
                other: self.other + 1,
                ..self
            },
        }
    }

    /// One reply more, behind fewer than 2^32 - 1.
    pub fn with_reply(self, reply: &Reply) -> Tally
        requires { IsSmall self }
        ensures told { (answers : List Answer) (a : Answer) → IsTally self answers → a.reply ≡ reply_told reply.now → IsTally result (answers ++ a ∷ []) }
    {
        self.with(kind_of(reply))
    }
}
