//! The settings of a connection.
ghost use Rattle.std.specs.Prelude.{◌≡◌, ◌≤◌, ◌^◌, ◌↔◌, IsTrue, None};
ghost use Rattle.amqp_conn.specs.Calling.{IsLimited};
ghost use Rattle.amqp_conn.specs.Octets.{session_of};

use amqp_rules::config::Config as SessionConfig;
use amqp_types::Text;

/// The least value of [`Config::max_frame`], in octets: every peer may send frames of this length (part 2, 2.7.1).
pub const MIN_MAX_FRAME: u32 = 512;

/// The settings of a connection: what our open states (part 2, 2.7.1), and the settings of the session.
#[derive(Drop, Debug)]
pub struct Config {
    /// Our container id.
    pub container_id: Text,
    /// The name of the peer's host, as a client states it.
    pub hostname: Option<Text>,
    /// The longest frame that we accept, in octets: 512 to 4294967295.
    pub max_frame: u32,
    /// The idle time-out that our open states, in milliseconds. This crate has no clock: the program measures the time.
    pub idle_time_out: Option<u32>,
    /// The id of the first transfer and of the first delivery that we send.
    pub first_id: u32,
    /// The incoming window, in transfers: 1 to 2147483647.
    pub window: u32,
    /// The most steps that the journal may have: 1 to 1073741824.
    pub journal_limit: u32,
}

impl Config {
    /// Returns the default settings with this container id: frames of at most 65536 octets, no host, no idle time-out,
    /// ids from 0, a window of 2048 transfers, and a journal of at most 1073741824 steps.
    pub fn new(container_id: Text) -> Config
        ensures { result ≡ record { container_id = container_id; hostname = None; max_frame = 65536; idle_time_out = None; first_id = 0; window = 2048; journal_limit = 2 ^ 30 } }
    {
        Config {
            container_id,
            hostname: None,
            max_frame: 65536,
            idle_time_out: None,
            first_id: 0,
            window: 2048,
            journal_limit: 1 << 30,
        }
    }

    /// Returns whether each setting is within its limits.
    pub fn is_within_limits(&self) -> bool
        ensures { IsTrue result ↔ IsLimited self.now }
    {
        MIN_MAX_FRAME <= self.max_frame && self.session().is_within_limits()
    }

    /// Returns the settings of the session.
    pub fn session(&self) -> SessionConfig
        ensures { result ≡ session_of self.now }
    {
        SessionConfig {
            first_id: self.first_id,
            window: self.window,
            journal_limit: self.journal_limit,
        }
    }
}
