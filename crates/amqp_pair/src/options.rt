//! What a run is to do.
ghost use Rattle.std.specs.Prelude.{◌↔◌, IsTrue};
ghost use Rattle.amqp_pair.specs.Ranges.{IsInRange};

/// The most messages of a run.
pub const MAX_COUNT: u32 = 100000;

/// The most threads that consume messages.
pub const MAX_CONSUMERS: u32 = 16;

/// The most messages that may come at a time.
pub const MAX_CREDIT: u32 = 1000;

/// The most octets of a message.
pub const MAX_SIZE: u32 = 1000000;

/// The longest frame of either end, in octets.
pub(crate) const MAX_FRAME: u32 = 65536;

/// What a run is to do.
#[derive(Clone, Copy, Debug)]
pub struct Options {
    /// How many messages, 1 to `MAX_COUNT`.
    pub count: u32,
    /// How many threads consume them, 1 to `MAX_CONSUMERS`.
    pub consumers: u32,
    /// How many messages the receiver lets come at a time, 1 to `MAX_CREDIT`.
    pub credit: u32,
    /// The octets of a message, at most `MAX_SIZE`.
    pub size: u32,
    /// The first transfer id and delivery id of both ends.
    pub first_id: u32,
    /// How many entries of its journal each end keeps at most, when it has fed what was read, and when it sends or learns; none: all.
    pub keep: Option<u32>,
    /// The messages go settled: nothing is told of them, and none is learnt of.
    pub settled: bool,
}

impl Options {
    /// Each option is in its range.
    pub fn are_in_range(&self) -> bool
        ensures { IsTrue result ↔ IsInRange self.now }
    {
        1 <= self.count
            && self.count <= MAX_COUNT
            && 1 <= self.consumers
            && self.consumers <= MAX_CONSUMERS
            && 1 <= self.credit
            && self.credit <= MAX_CREDIT
            && self.size <= MAX_SIZE
    }
}
