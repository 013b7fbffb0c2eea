//! The result of a feed.
use amqp_rules::reply::Given;
use amqp_rules::violation::Violation;

/// What a feed took, and what that gave.
#[derive(Drop, Debug)]
pub struct Fed {
    /// How many octets of the piece were used.
    pub used: usize,
    /// Whether the journal has one entry more.
    pub stepped: bool,
    /// What that entry gave; [`Given::Nothing`] if there is no new entry.
    pub given: Given,
    /// The violation that the entry answers, by a frame that was not taken: the next feed reads that frame again.
    pub violation: Option<Violation>,
}
