//! The first word of a line.
ghost use Rattle.std.specs.Prelude.{◌≡◌, option_map};
ghost use Rattle.eon_model.specs.NetworkFault.{word_spelled, may_stand_after};
ghost use Rattle.net_file.specs.Told.{word_told};

#[derive(Clone, Copy, Debug, PartialEq, Eq)]
pub(crate) enum Word {
    Net,
    Band,
    Guard,
    K,
    Services,
    Journal,
    Format,
    Node,
    Fibre,
    Group,
    End,
}

// The word that is spelled so.
pub(crate) fn word_spelled(field: &[u8]) -> Option<Word>
    ensures { option_map word_told result ≡ word_spelled field.now }
{
    if b"net".as_slice() == field {
        Some(Word::Net)
    } else if b"band".as_slice() == field {
        Some(Word::Band)
    } else if b"guard".as_slice() == field {
        Some(Word::Guard)
    } else if b"k".as_slice() == field {
        Some(Word::K)
    } else if b"services".as_slice() == field {
        Some(Word::Services)
    } else if b"journal".as_slice() == field {
        Some(Word::Journal)
    } else if b"format".as_slice() == field {
        Some(Word::Format)
    } else if b"node".as_slice() == field {
        Some(Word::Node)
    } else if b"fibre".as_slice() == field {
        Some(Word::Fibre)
    } else if b"group".as_slice() == field {
        Some(Word::Group)
    } else if b"end".as_slice() == field {
        Some(Word::End)
    } else {
        None
    }
}

impl Word {
    // Whether the word may stand right after this one, and where None, at the start.
    pub(crate) fn may_stand_after(self, last: Option<Word>) -> bool
        ensures { result ≡ may_stand_after (option_map word_told last) (word_told self) }
    {
        match last {
            None => matches!(self, Word::Net),
            Some(Word::Net) => matches!(self, Word::Band),
            Some(Word::Band) => matches!(self, Word::Band | Word::Guard),
            Some(Word::Guard) => matches!(self, Word::K),
            Some(Word::K) => matches!(self, Word::Services),
            Some(Word::Services) => matches!(self, Word::Journal),
            Some(Word::Journal) => matches!(self, Word::Format),
            Some(Word::Format) => matches!(self, Word::Format | Word::Node),
            Some(Word::Node) => matches!(self, Word::Node | Word::Fibre | Word::End),
            Some(Word::Fibre) => matches!(self, Word::Fibre | Word::Group | Word::End),
            Some(Word::Group) => matches!(self, Word::Group | Word::End),
            Some(Word::End) => false,
        }
    }
}
