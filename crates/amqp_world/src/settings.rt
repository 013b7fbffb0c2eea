//! What is settled of an end before it starts.

use amqp_rules::config::Config;

/// What is settled of one end before it starts: of its session, and what its open would tell the other.
#[derive(Clone, Copy, Debug, PartialEq, Eq)]
pub struct Settings {
    pub session: Config,
    /// The longest frame that it takes, in octets (part 2, 2.7.1). Less than 512 counts as 512.
    pub max_frame: u32,
}
