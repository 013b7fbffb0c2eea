//! The first octets of a peer, and what they most likely mean.

/// What a peer said first.
#[derive(Clone, Copy, Debug, PartialEq, Eq)]
pub enum Greeting {
    /// Nothing yet, or not enough.
    Nothing,
    /// The header of AMQP (part 2, 2.2), of whatever version.
    Amqp,
    /// The header of a SASL layer (part 5, 5.3.1).
    Sasl,
    /// The header of a TLS layer (part 5, 5.2.1), or the first octets of TLS.
    Tls,
    /// Anything else.
    Other,
}

/// Returns what a peer said, by its first octets.
pub fn greeting_of(octets: &[u8]) -> Greeting {
    match octets {
        [0x41, 0x4d, 0x51, 0x50, 0, ..] => Greeting::Amqp,
        [0x41, 0x4d, 0x51, 0x50, 2, ..] => Greeting::Tls,
        [0x41, 0x4d, 0x51, 0x50, 3, ..] => Greeting::Sasl,
        [0x16, 0x03, ..] => Greeting::Tls,
        [_, _, _, _, _, ..] => Greeting::Other,
        _ => Greeting::Nothing,
    }
}

impl Greeting {
    /// Returns why a connection most likely failed that began so, if its beginning says so.
    pub fn meaning(self) -> Option<&'static str> {
        match self {
            Greeting::Nothing => Some(
                "it left before its header was complete: it most likely requires SASL or TLS, which serve does not have, or only tried the port",
            ),
            Greeting::Amqp => None,
            Greeting::Sasl => Some(
                "it asks for a SASL layer (part 5), which serve does not have: switch SASL off at the peer, or put a front before serve that ends the layer",
            ),
            Greeting::Tls => Some(
                "it asks for a TLS layer (part 5), which serve does not have: switch TLS off at the peer, or put a front before serve that ends the layer",
            ),
            Greeting::Other => Some("its first octets are not AMQP 1.0"),
        }
    }
}
