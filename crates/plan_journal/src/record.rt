//! The bytes that come behind a gate.
ghost use Rattle.std.specs.Prelude.{◌≡◌, ◌+◌, ◌≤◌, [], ◌∷◌, ◌++◌, length, IsTrue};
ghost use Rattle.eon_model.specs.EventText.{is_event};
ghost use Rattle.eon_model.specs.Journal.{record_body};
ghost use Rattle.journal_record.specs.Told.{event_told};

use arrayvec::ArrayVec;
use eon_model::journal_laws::events_are_short;
use journal_record::{Event, EventBuf, write_event};
use std::marker::Model;

/// The most bytes of a record behind its gate, with the next gate: the length, the number, an event and a byte.
const MOST_BYTES: usize = 184;

/// The bytes of a record behind its gate, and of the next gate, kept without memory.
#[derive(Drop)]
pub(crate) struct RecordBuf {
    bytes: ArrayVec<u8, MOST_BYTES>,
}

impl Model for RecordBuf {
    ghost use Rattle.std.specs.Prelude.{ℕ, List};

    ghost Value = { List ℕ };

    ghost view = { λ b. b.bytes.items };
}

impl RecordBuf {
    /// The record of this event, with this number, and a gate of 0.
    pub(crate) fn of(number: u32, e: &Event) -> RecordBuf
        requires { IsTrue (is_event (event_told e.now)) }
        ensures { result ≡ record_body number (event_told e.now) ++ 0 ∷ [] }
    {
        events_are_short();
        let mut event = EventBuf::new();
        let count = write_event(e, &mut event);
        let mut record = RecordBuf {
            bytes: ArrayVec::new(),
        };
        record.put(&(count as u16).to_be_bytes());
        record.put(&number.to_be_bytes());
        record.put(event.bytes());
        record.put(&[0]);
        record
    }

    /// Its bytes.
    pub(crate) fn bytes(&self) -> &[u8]
        ensures { result.now ≡ self.now }
    {
        self.bytes.as_slice()
    }

    // Appends these bytes.
    fn put(&mut self, piece: &[u8])
        requires { length self.old + length piece.now ≤ 184 }
        ensures { self.new ≡ self.old ++ piece.now }
    {
        match self.bytes.try_extend_from_slice(piece) {
            Ok(()) => {}
            Err(_) => unreachable!(),
        }
    }
}
