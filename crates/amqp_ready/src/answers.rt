//! Counts the answers to what was read that wait to be written.
ghost use Rattle.std.specs.Prelude.{◌≡◌, nat_le};
ghost use Rattle.amqp_ready.specs.Answering.{added, fresh, written};

/// The default of [`Slot::hold_at`](crate::Slot::hold_at), in octets.
pub const ANSWERS: u64 = 1048576;

/// The octets that were put out while what was read was fed, and that wait to be written. Octets that a handler puts
/// out in `Handler::go_on`, or the program, do not count: if they did, two ends that both send much would wait for
/// each other to read.
///
/// Counting starts at a mark. Once all octets in front of the mark are written, the mark is set anew behind all that
/// waits, so every octet that is counted waits.
#[derive(Clone, Copy)]
pub(crate) struct Answers {
    /// At so many counted octets nothing more is read.
    pub most: u64,
    /// How many octets came behind the mark.
    since: u64,
    /// How many octets of any kind wait in front of the mark.
    ahead: u64,
}

impl Answers {
    pub(crate) fn new() -> Answers
        ensures { result ≡ fresh }
    {
        Answers {
            most: ANSWERS,
            since: 0,
            ahead: 0,
        }
    }

    /// Counts what a feed put out: `before` octets waited before it, and `after` behind it.
    pub(crate) fn add(&mut self, before: u64, after: u64)
        ensures { self.new ≡ added before after self.old }
    {
        self.since = self.since.saturating_add(after.saturating_sub(before));
    }

    /// Moves the mark for what was written: `before` octets waited before the write, and `left` wait now.
    pub(crate) fn take_off(&mut self, before: u64, left: u64)
        ensures { self.new ≡ written before left self.old }
    {
        let count = before.saturating_sub(left);
        if count == 0 {
            return;
        }
        if self.ahead <= count {
            self.since = 0;
            self.ahead = left;
        } else {
            self.ahead -= count;
        }
    }

    pub(crate) fn are_many(&self) -> bool
        ensures { result ≡ nat_le self.now.most self.now.since }
    {
        self.most <= self.since
    }
}
