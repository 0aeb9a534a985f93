//! The lines of networks and journals that are refused.
ghost use Rattle.std.specs.Prelude.{◌≡◌, ℕ, ◌+◌, ◌≤◌, ◌++◌, List, length};
ghost use Rattle.eon_model.specs.TopLines.{why_word, journal_word, hex, network_fault_line, journal_fault_line, journal_other_line, journal_notempty_line, journal_full_line, next_fault_line, wide_word, narrower_line};
ghost use Rattle.net_file.specs.Told.{why_told};
ghost use Rattle.net_widening.specs.Told.{wide_told};
ghost use Rattle.journal_replay.specs.Replayed.{why_told as journal_why_told};

use arrayvec::ArrayVec;
use eon_base::number::digits;
use hex::encode_to_slice;
use journal_replay::JournalWhy;
use net_file::Why;
use net_widening::Narrower;
use std::marker::Model;

/// The most bytes of such a line: two digests of 64 digits, and the words before.
const MOST_BYTES: usize = 144;

/// The digits of a digest.
const DIGITS: usize = 64;

/// The one line that is written of a network or a journal that is refused.
#[derive(Drop)]
pub(crate) struct FaultLine {
    bytes: ArrayVec<u8, MOST_BYTES>,
}

impl Model for FaultLine {
    ghost use Rattle.std.specs.Prelude.{ℕ, List};

    ghost Value = { List ℕ };

    ghost view = { λ l. l.bytes.items };
}

/// The word of a cause.
fn word_of(why: Why) -> &'static str
    ensures word { result.now ≡ why_word (why_told why) }
    ensures short { length result.now ≤ 7 }
{
    match why {
        Why::Rest => "rest",
        Why::Short => "short",
        Why::Word => "word",
        Why::Form => "form",
        Why::Range => "range",
        Why::Many => "many",
        Why::Order => "order",
        Why::Twice => "twice",
        Why::Unknown => "unknown",
        Why::SelfEnd => "selfend",
        Why::Groups => "groups",
    }
}

/// The word of what is wrong with a journal.
fn journal_word_of(why: JournalWhy) -> &'static str
    ensures word { result.now ≡ journal_word (journal_why_told why) }
    ensures short { length result.now ≤ 6 }
{
    match why {
        JournalWhy::Head => "head",
        JournalWhy::Record => "record",
        JournalWhy::Event => "event",
    }
}

/// The word of what a network is narrower in.
fn narrower_word_of(what: Narrower) -> &'static str
    ensures word { result.now ≡ wide_word (wide_told what) }
    ensures short { length result.now ≤ 8 }
{
    match what {
        Narrower::Guard => "guard",
        Narrower::Services => "services",
        Narrower::Journal => "journal",
        Narrower::Format => "format",
        Narrower::Node => "node",
        Narrower::Fibre => "fibre",
        Narrower::Group => "group",
        Narrower::Band => "band",
    }
}

/// Two lower-case digits for each byte of a digest.
fn digits_of(digest: &[u8; 32]) -> [u8; DIGITS]
    ensures { result ≡ hex digest.now }
{
    let mut text = [0; DIGITS];
    match encode_to_slice(digest.as_slice(), &mut text) {
        Ok(()) => text,
        Err(_) => unreachable!(),
    }
}

impl FaultLine {
    /// The network's first line with a fault, and the word of the cause.
    pub(crate) fn of_network(number: u32, why: Why) -> FaultLine
        ensures { result ≡ network_fault_line number (why_told why) }
    {
        let mut line = FaultLine {
            bytes: ArrayVec::new(),
        };
        line.append(b"net ");
        line.append(digits(u64::from(number)).bytes());
        line.append(b" ");
        line.append(word_of(why).as_bytes());
        line.append(b"\n");
        line
    }

    /// The same of the network that a journal is to be bound to.
    pub(crate) fn of_next(number: u32, why: Why) -> FaultLine
        ensures { result ≡ next_fault_line number (why_told why) }
    {
        let mut line = FaultLine {
            bytes: ArrayVec::new(),
        };
        line.append(b"next ");
        line.append(digits(u64::from(number)).bytes());
        line.append(b" ");
        line.append(word_of(why).as_bytes());
        line.append(b"\n");
        line
    }

    /// What that network is narrower in.
    pub(crate) fn of_narrower(what: Narrower) -> FaultLine
        ensures { result ≡ narrower_line (wide_told what) }
    {
        let mut line = FaultLine {
            bytes: ArrayVec::new(),
        };
        line.append(b"net narrower ");
        line.append(narrower_word_of(what).as_bytes());
        line.append(b"\n");
        line
    }

    /// The place where a journal is refused, and the word of what is wrong there.
    pub(crate) fn of_journal(at: u64, why: JournalWhy) -> FaultLine
        ensures { result ≡ journal_fault_line at (journal_why_told why) }
    {
        let mut line = FaultLine {
            bytes: ArrayVec::new(),
        };
        line.append(b"journal ");
        line.append(digits(at).bytes());
        line.append(b" ");
        line.append(journal_word_of(why).as_bytes());
        line.append(b"\n");
        line
    }

    /// The digest that a journal of another network keeps, and that of this network.
    pub(crate) fn of_other(kept: &[u8; 32], own: &[u8; 32]) -> FaultLine
        ensures { result ≡ journal_other_line kept.now own.now }
    {
        let mut line = FaultLine {
            bytes: ArrayVec::new(),
        };
        line.append(b"journal other ");
        line.append(&digits_of(kept));
        line.append(b" ");
        line.append(&digits_of(own));
        line.append(b"\n");
        line
    }

    /// How many bytes are there, where a journal was to be made.
    pub(crate) fn of_not_empty(len: u64) -> FaultLine
        ensures { result ≡ journal_notempty_line len }
    {
        let mut line = FaultLine {
            bytes: ArrayVec::new(),
        };
        line.append(b"journal notempty ");
        line.append(digits(len).bytes());
        line.append(b"\n");
        line
    }

    /// How many bytes a journal needs, and how many are left.
    pub(crate) fn of_full(need: u32, left: u32) -> FaultLine
        ensures { result ≡ journal_full_line need left }
    {
        let mut line = FaultLine {
            bytes: ArrayVec::new(),
        };
        line.append(b"journal full ");
        line.append(digits(u64::from(need)).bytes());
        line.append(b" ");
        line.append(digits(u64::from(left)).bytes());
        line.append(b"\n");
        line
    }

    fn append(&mut self, piece: &[u8])
        requires { length self.old + length piece.now ≤ 144 }
        ensures { self.new ≡ self.old ++ piece.now }
    {
        match self.bytes.try_extend_from_slice(piece) {
            Ok(()) => {}
            Err(_) => unreachable!(),
        }
    }

    /// Its bytes.
    pub(crate) fn bytes(&self) -> &[u8]
        ensures { result.now ≡ self.now }
    {
        self.bytes.as_slice()
    }
}
