//! What is settled before the first step.
ghost use Rattle.std.specs.Prelude.{◌↔◌, IsTrue};
ghost use Rattle.amqp_rules.specs.Limits.{IsWithinLimits};

/// The greatest incoming window, in transfers.
pub const MAX_WINDOW: u32 = 2147483647;

/// The most steps that a journal may be allowed.
pub const MAX_JOURNAL_LIMIT: u32 = 1073741824;

/// What is settled before the first step.
#[derive(Clone, Copy, Debug, PartialEq, Eq)]
pub struct Config {
    /// The id of the first transfer and of the first delivery that are sent.
    pub first_id: u32,
    /// How many transfers are taken at a time, as each begin and flow tells: 1 to 2147483647.
    pub window: u32,
    /// How many steps a journal may have: 1 to 1073741824.
    pub journal_limit: u32,
}

impl Config {
    /// Each setting is within its limits.
    pub fn is_within_limits(&self) -> bool
        ensures { IsTrue result ↔ IsWithinLimits self.now }
    {
        1 <= self.window
            && self.window <= MAX_WINDOW
            && 1 <= self.journal_limit
            && self.journal_limit <= MAX_JOURNAL_LIMIT
    }
}
