//! The peer and the address that a word names: `amqp://HOST:PORT/ADDRESS`, or an address alone.
ghost use Rattle.std.specs.Prelude.{IfSome};
ghost use Rattle.amqp_peer.specs.Places.{IsHost, IsBracketed};

/// The port that is meant if none is named: that of AMQP without TLS.
const PORT: u16 = 5672;

/// The address that is meant if none is named.
const ADDRESS: &str = "q";

/// A peer, and an address at it.
#[derive(Clone, Copy, Debug)]
pub struct Place<'a> {
    pub host: &'a str,
    pub port: u16,
    pub address: &'a str,
}

/// What a word names.
#[derive(Clone, Copy, Debug)]
pub enum Named<'a> {
    Place(Place<'a>),
    /// An address alone, at whatever peer.
    Address(&'a str),
}

/// Reads `amqp://HOST`, `amqp://HOST:PORT`, either with `/ADDRESS` behind it, or an address alone, which is taken as it is written.
/// Returns `None` for another scheme, an empty word, and a host that [`host_and_port`] does not read.
pub fn named_by(word: &str) -> Option<Named<'_>> {
    match word.strip_prefix("amqp://") {
        Some(rest) => Some(Named::Place(at_host(rest)?)),
        None if word.is_empty() || word.contains("://") => None,
        None => Some(Named::Address(word)),
    }
}

/// Reads what stands behind the scheme.
fn at_host(rest: &str) -> Option<Place<'_>> {
    let (authority, address) = match rest.split_once('/') {
        Some((authority, "")) => (authority, ADDRESS),
        Some((authority, address)) => (authority, address),
        None => (rest, ADDRESS),
    };
    let (host, port) = host_and_port(authority)?;
    Some(Place {
        host,
        port: port.unwrap_or(PORT),
        address,
    })
}

/// Reads a host, and the port that may stand behind it. Returns `None` for an empty host, a user in front of it, and a port that is none.
pub fn host_and_port(text: &str) -> Option<(&str, Option<u16>)> {
    let (host, port) = split_host(text)?;
    if host.is_empty() || host.contains('@') {
        return None;
    }
    match port {
        Some(port) => Some((host, Some(port_of(port)?))),
        None => Some((host, None)),
    }
}

fn port_of(text: &str) -> Option<u16> {
    u16::try_from(number_of(text)?).ok()
}

/// Reads a decimal number of at most 32 bits, without a sign.
pub fn number_of(text: &str) -> Option<u32> {
    if text.starts_with('+') {
        return None;
    }
    text.parse::<u32>().ok()
}

/// Splits `HOST`, `HOST:PORT`, `[HOST]` or `[HOST]:PORT`. A host with colons and without brackets is an IPv6 address, and has no port.
fn split_host(text: &str) -> Option<(&str, Option<&str>)>
    ensures { IfSome result (λ x. IsHost text.now x.0.now x.1) }
{
    if let Some(rest) = text.strip_prefix('[') {
        return split_bracketed(rest);
    }
    match text.split_once(':') {
        Some((host, port)) if !port.contains(':') => Some((host, Some(port))),
        _ => Some((text, None)),
    }
}

/// Splits `HOST]` or `HOST]:PORT`.
fn split_bracketed(rest: &str) -> Option<(&str, Option<&str>)>
    ensures { IfSome result (λ x. IsBracketed rest.now x.0.now x.1) }
{
    let (host, behind) = rest.split_once(']')?;
    if behind.is_empty() {
        return Some((host, None));
    }
    Some((host, Some(behind.strip_prefix(':')?)))
}
