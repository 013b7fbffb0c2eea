//! The phases of a connection.

/// The phase of a connection (part 2, 2.4.6): which of header, open and close were exchanged.
#[derive(Clone, Copy, Debug, PartialEq, Eq)]
pub enum Phase {
    /// Our header is queued to be written, and the peer's is awaited.
    AwaitHeader,
    /// Our open is queued to be written, and the peer's is awaited.
    AwaitOpen,
    /// The peer's open was received: frames are taken, and operations are done.
    Running,
    /// Our close is queued to be written, and the peer's is awaited.
    Closing,
    /// The connection has ended: nothing is read, and nothing more is queued. The units that wait can still be popped.
    Closed,
}
