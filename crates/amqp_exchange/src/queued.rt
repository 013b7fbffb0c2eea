//! How much is put out before it is written, and the peer is read.
ghost use Rattle.std.specs.Prelude.{◌↔◌, ◌≤◌, ◌⊎◌, IsTrue};

/// So many messages are put out at most before they are written: what is in doubt is then what is on its way to the peer and back, and little more.
const MESSAGES: u32 = 64;

/// So many bytes of messages are put out at most before they are written.
const BYTES: usize = 262144;

/// The messages that were put out since the connection was written and read last.
#[derive(Clone, Copy)]
pub(crate) struct Queued {
    messages: u32,
    bytes: usize,
}

impl Queued {
    /// Nothing was put out.
    pub(crate) const NONE: Queued = Queued {
        messages: 0,
        bytes: 0,
    };

    /// Notes that a message of so many bytes was put out.
    pub(crate) fn add(&mut self, bytes: usize) {
        self.messages = self.messages.saturating_add(1);
        self.bytes = self.bytes.saturating_add(bytes);
    }

    /// Returns whether so much was put out that the connection is to be written and read.
    pub(crate) fn is_full(&self) -> bool
        ensures { IsTrue result ↔ ((64 ≤ self.now.messages) ⊎ (262144 ≤ self.now.bytes)) }
    {
        self.messages >= MESSAGES || self.bytes >= BYTES
    }
}
