//! What a command comes to.
use journal_record::Event;
use reply_text::Reply;

/// What a command comes to.
#[derive(Drop)]
pub enum Decision {
    /// A reply alone.
    Say(Reply),
    /// A change, and the reply that it has once it stands.
    Change { event: Event, reply: Reply },
}
