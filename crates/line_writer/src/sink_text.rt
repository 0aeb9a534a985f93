//! A text that is given to a sink.
ghost use Rattle.std.specs.Prelude.{◌≡◌, true, false, OnOk, OnErr};
ghost use Rattle.line_writer.specs.Sent.{Sent, sent_by};

use crate::text_sink::TextSink;
use eon_outside::{Failed, Sink, write_all};

/// A text that is given to a sink, each piece as it comes. A failure of the sink is its one failure.
#[derive(Drop)]
pub struct SinkText<'a, K: Sink> {
    /// What it is given to.
    pub out: &'a mut K,
    /// Whether the sink failed.
    pub stopped: bool,
}

impl<'a, K: Sink> TextSink for SinkText<'a, K> {
    ghost sent = { λ t. sent_by t.out.ghost_name 0 (K.given t.out.now) (K.standing t.out.now) t.stopped };

    fn put(&mut self, bytes: &[u8]) {
        if self.stopped {
            return;
        }
        if let Err(_) = write_all(self.out, bytes) {
            self.stopped = true;
        }
    }
}

impl<'a, K: Sink> SinkText<'a, K> {
    /// A text for this sink, of which nothing is given yet.
    pub fn new(out: &'a mut K) -> SinkText<'a, K>
        ensures place { result.out.ghost_name ≡ out.entry.ghost_name }
        ensures same { result.out.now ≡ out.old }
        ensures going { result.stopped ≡ false }
    {
        SinkText {
            out,
            stopped: false,
        }
    }

    /// Ends the text: all of it was given, or the sink failed.
    pub fn finish(&self) -> Result<(), Failed>
        ensures whole { OnOk result (self.now.stopped ≡ false) }
        ensures stopped { OnErr result (self.now.stopped ≡ true) }
    {
        if self.stopped {
            return Err(Failed);
        }
        Ok(())
    }
}
