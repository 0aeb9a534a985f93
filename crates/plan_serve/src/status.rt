//! How a call of the planner ended.
ghost use Rattle.std.specs.Prelude.{◌≡◌, OnOk, OnErr};
ghost use Rattle.std.specs.Io.KnownBytes.{Appends};
ghost use Rattle.eon_outside.specs.Faults.{Stands};
ghost use Rattle.eon_outside.specs.Writing.{AppendsPart};
ghost use Rattle.plan_serve.specs.Status.{own_line};
ghost use Rattle.plan_serve.specs.Ends.{GivesLine};

use crate::fault_line::FaultLine;
use eon_outside::{Failed, Sink, write_all};
use journal_replay::JournalWhy;
use net_file::Why;
use net_widening::Narrower;

/// How the program is called.
const USAGE: &str =
    "usage: eonplan dry NET COMMANDS | init NET JOURNAL | serve NET JOURNAL COMMANDS | replay NET JOURNAL | drive NET SEED COUNT | migrate NET NEXT JOURNAL | live NET JOURNAL COMMANDS | room NET JOURNAL COMMANDS\n";

/// What is written for a mode that is not built yet.
const LATER: &str = "later\n";

/// What is written of a network that is too long.
const NET_LONG: &str = "net long\n";

/// What is written where the network that a journal is to be bound to is too long.
const NEXT_LONG: &str = "next long\n";

/// How a call of the planner ended.
#[derive(Clone, Copy, Debug, PartialEq, Eq)]
pub enum Status {
    /// All was done: a stream was read to its end, or a `quit` line was answered; a journal was made, or told.
    Done,
    /// The words ask for nothing; the usage line was written.
    Words,
    /// The network is no network text: this is its first line with a fault, counted from 1, and its first cause.
    NetRefused { line: u32, why: Why },
    /// The network's file has more than 1,048,576 bytes.
    NetLong,
    /// The network that a journal is to be bound to is no network text: this is its first line with a fault, and its
    /// first cause.
    NextRefused { line: u32, why: Why },
    /// The file of the network that a journal is to be bound to has more than 1,048,576 bytes.
    NextLong,
    /// It does not widen the network that the journal is bound to: this is the first thing that it is narrower in.
    NotWider { what: Narrower },
    /// A file could not be opened or read.
    ReadFault,
    /// A call of the disk failed.
    DiskFault,
    /// The journal is none at this offset: its head, a record, or an event that cannot follow those before.
    JournalRefused { at: u64, why: JournalWhy },
    /// The journal is bound to a network of another digest.
    JournalOther { kept: [u8; 32], own: [u8; 32] },
    /// A journal was to be made, and the disk has so many bytes already.
    NotEmpty { len: u64 },
    /// The journal is full: so many bytes are needed, and fewer are left.
    JournalFull { need: u32, left: u32 },
    /// There was no memory, before anything was written.
    Memory,
    /// The output could not be written.
    WriteFault,
    /// The command stream has more than 268,435,456 bytes, and no `quit` line ends before.
    InputLong,
    /// The mode is not built yet.
    Later,
}

impl Status {
    ghost use Rattle.plan_serve.specs.Status.{code_of, own_line};

    /// The code with which the program ends.
    pub fn code(self) -> u8
        ensures { result ≡ code_of self }
    {
        match self {
            Status::Done => 0,
            Status::Words => 1,
            Status::NetRefused { .. } | Status::NetLong => 2,
            Status::NextRefused { .. } | Status::NextLong | Status::NotWider { .. } => 2,
            Status::ReadFault => 3,
            Status::DiskFault => 4,
            Status::JournalRefused { .. } | Status::JournalOther { .. } | Status::NotEmpty { .. } =>
                5,
            Status::JournalFull { .. } => 5,
            Status::Memory => 6,
            Status::WriteFault => 7,
            Status::InputLong => 8,
            Status::Later => 9,
        }
    }

    /// Gives the line that says why nothing is done, if there is one.
    pub(crate) fn write_line<K: Sink>(self, out: &mut K) -> Result<(), Failed>
        ensures bytes { OnOk result (Appends (K.given out.old) (K.given out.new) (own_line self)) }
        ensures part { OnErr result (AppendsPart (K.given out.old) (K.given out.new) (own_line self)) }
        ensures stands { Stands (K.standing out.old) (K.standing out.new) result }
    {
        match self {
            Status::Words => write_all(out, USAGE.as_bytes()),
            Status::NetRefused { line, why } => {
                write_all(out, FaultLine::of_network(line, why).bytes())
            }
            Status::NetLong => write_all(out, NET_LONG.as_bytes()),
            Status::NextRefused { line, why } => {
                write_all(out, FaultLine::of_next(line, why).bytes())
            }
            Status::NextLong => write_all(out, NEXT_LONG.as_bytes()),
            Status::NotWider { what } => write_all(out, FaultLine::of_narrower(what).bytes()),
            Status::JournalRefused { at, why } => {
                write_all(out, FaultLine::of_journal(at, why).bytes())
            }
            Status::JournalOther { kept, own } => {
                write_all(out, FaultLine::of_other(&kept, &own).bytes())
            }
            Status::NotEmpty { len } => write_all(out, FaultLine::of_not_empty(len).bytes()),
            Status::JournalFull { need, left } => {
                write_all(out, FaultLine::of_full(need, left).bytes())
            }
            Status::Later => write_all(out, LATER.as_bytes()),
            _ => write_all(out, &[]),
        }
    }
}

/// Gives the line that says why nothing is done, if the status has one. What becomes of it does not change the status.
pub(crate) fn refuse<K: Sink>(out: &mut K, status: Status) -> Status
    ensures status { result ≡ status }
    ensures given { GivesLine (own_line status) (K.given out.old) (K.given out.new) (K.standing out.old).faults (K.standing out.new).faults }
    ensures room { (K.standing out.new).room ≡ (K.standing out.old).room }
{
    match status.write_line(out) {
        Ok(()) => status,
        Err(Failed) => status,
    }
}
