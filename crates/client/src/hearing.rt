//! What a client hears.
use letters::Refused;
use message::{Done, Message};

/// What a client hears.
#[derive(Drop)]
pub enum Hearing {
    /// The end of a transaction.
    End(Done),
    /// Any other message.
    Heard(Message),
    /// A shard has refused a letter.
    Refused(Refused),
    /// A shard keeps what was sent again.
    UnderWay,
    /// Nothing came for a pause.
    Silence,
    /// Nothing came for as long as it waits.
    Enough,
}
