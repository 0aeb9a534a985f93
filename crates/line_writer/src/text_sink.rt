//! What takes a text.
ghost use Rattle.line_writer.specs.Sent.{Sent, Takes};

/// What takes the bytes of a text, from its front to its end. It stops at its first failure: from then on nothing is
/// taken any more, and the end tells it.
///
/// Contracts see of it what was given, how many faults were counted, whether it stopped, and where it prints.
pub trait TextSink {
    ghost sent: { Self → Sent };

    /// Takes these bytes.
    fn put(&mut self, bytes: &[u8])
        ensures { Takes (sent self.old) (sent self.new) bytes.now };
}
