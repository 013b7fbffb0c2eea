//! What goes out to the peer.
use amqp_rules::sliced::Sliced;

/// Octets that go out to the peer at once: a frame that a step sends, or what a connection put among them.
#[derive(Drop, Debug)]
pub struct Unit {
    /// How many units were put out before it.
    pub number: u64,
    /// A long payload stands in a slice of its own.
    pub bytes: Sliced,
}
