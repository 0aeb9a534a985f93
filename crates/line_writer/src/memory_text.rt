//! A text in memory.
ghost use Rattle.std.specs.Prelude.{◌≡◌, true, false, Some, length, take, OnOk, OnErr};
ghost use Rattle.line_writer.specs.Sent.{Sent, sent_by, memory_standing};

use crate::text_sink::TextSink;
use std::alloc::AllocError;

/// A text that is added to bytes in memory. Want of memory is its one failure.
#[derive(Drop)]
pub struct MemoryText<'a> {
    /// The bytes before the text, and the text so far.
    pub bytes: &'a mut Vec<u8>,
    /// How many bytes stood before the text.
    pub begins: usize,
    /// Whether memory ran out.
    pub stopped: bool,
}

impl<'a> TextSink for MemoryText<'a> {
    ghost sent = { λ t.
        sent_by t.bytes.ghost_name t.begins (Some t.bytes.now.items) (memory_standing t.stopped) t.stopped };

    fn put(&mut self, bytes: &[u8]) {
        if self.stopped || bytes.is_empty() {
            return;
        }
        if self.bytes.extend_from_slice(bytes).is_err() {
            self.stopped = true;
        }
    }
}

impl<'a> MemoryText<'a> {
    /// A text behind these bytes, of which nothing is printed yet.
    pub fn new(bytes: &'a mut Vec<u8>) -> MemoryText<'a>
        ensures place { result.bytes.ghost_name ≡ bytes.entry.ghost_name }
        ensures same { result.bytes.now ≡ bytes.old }
        ensures begins { result.begins ≡ length bytes.old.items }
        ensures going { result.stopped ≡ false }
    {
        let begins = bytes.len();
        MemoryText {
            bytes,
            begins,
            stopped: false,
        }
    }

    /// Ends the text: all of it stands there, or, where memory ran out, it is cut off again.
    pub fn finish(&mut self) -> Result<(), AllocError>
        ensures place { self.new.bytes.ghost_name ≡ self.old.bytes.ghost_name }
        ensures whole { OnOk result (self.old.stopped ≡ false) }
        ensures kept { OnOk result (self.new.bytes.now.items ≡ self.old.bytes.now.items) }
        ensures stopped { OnErr result (self.old.stopped ≡ true) }
        ensures cut { OnErr result (self.new.bytes.now.items ≡ take self.old.begins self.old.bytes.now.items) }
    {
        if self.stopped {
            self.bytes.truncate(self.begins);
            return Err(AllocError);
        }
        Ok(())
    }
}
