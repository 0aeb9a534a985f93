//! The kinds of replies that a summary tells apart.
ghost use Rattle.std.specs.Prelude.{◌≡◌};
ghost use Rattle.reply_text.specs.Replied.{reply_told};
ghost use Rattle.load_summary.specs.Kinds.{kind_of};

use reply_text::Reply;

/// A kind of reply.
#[derive(Clone, Copy, Debug, PartialEq, Eq)]
pub(crate) enum Kind {
    /// A change was made.
    Done,
    /// Nothing fits.
    Blocked,
    /// There is no candidate.
    NoRoute,
    /// There was no memory.
    Memory,
    /// Every other reply.
    Other,
}

/// The kind of a reply.
pub(crate) fn kind_of(reply: &Reply) -> Kind
    ensures { result ≡ kind_of (reply_told reply.now) }
{
    match reply {
        Reply::Placed { .. }
        | Reply::Admitted { .. }
        | Reply::Made { .. }
        | Reply::Released { .. }
        | Reply::Pushed { .. }
        | Reply::Finished { .. }
        | Reply::Backed { .. }
        | Reply::Refitted { .. } => Kind::Done,
        Reply::Blocked { .. } => Kind::Blocked,
        Reply::NoRoute => Kind::NoRoute,
        Reply::Memory => Kind::Memory,
        _ => Kind::Other,
    }
}
