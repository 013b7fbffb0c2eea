//! What is asked for by the options that were given.

use crate::place::{Named, Place, host_and_port, named_by, number_of};
use amqp_bench::{Ends, Messages, Sockets};
use amqp_exchange::exchange::{Exchange, Renewal, Settlement};
use amqp_exchange::{Labels, Printed};
use amqp_pair::Options;
use amqp_rules::config::{Config, MAX_JOURNAL_LIMIT};
use amqp_script::explain::{Explanation, Kind, is_sent};
use amqp_serve::Serve;
use amqp_trace::{Direction, Look};
use clap::ArgMatches;
use clap::parser::ValueSource;

/// The settings where no option is given.
pub const USUAL: Config = Config {
    first_id: 0,
    window: 2048,
    journal_limit: MAX_JOURNAL_LIMIT,
};

/// What the words behind the command ask for; what they leave out is as usual.
pub fn config_of(options: &ArgMatches<'_>) -> Config {
    Config {
        first_id: options.get_one::<u32>("first-id").unwrap_or(USUAL.first_id),
        window: options.get_one::<u32>("window").unwrap_or(USUAL.window),
        journal_limit: options
            .get_one::<u32>("limit")
            .unwrap_or(USUAL.journal_limit),
    }
}

/// Which way the octets of a `trace` went.
pub fn direction_of(options: &ArgMatches<'_>) -> Direction {
    if options.get_flag("heard") {
        Direction::Heard
    } else {
        Direction::Sent
    }
}

/// How the lines of a trace look.
pub fn look_of(options: &ArgMatches<'_>) -> Look {
    if options.get_flag("color") {
        Look::Colored
    } else {
        Look::Plain
    }
}

/// How frames are told of which it is asked that they are.
fn traced_of(options: &ArgMatches<'_>) -> Option<Look> {
    if options.get_flag("trace") {
        Some(look_of(options))
    } else {
        None
    }
}

/// What an `explain` is to print. None for a number that stands for nothing, and for a condition that no peer is sent.
pub fn explanation_of<'a>(options: &ArgMatches<'a>) -> Option<Explanation<'a>> {
    let kind = kind_of(options);
    match options.get_str("what") {
        None => Some(Explanation::All(kind.unwrap_or(Kind::Refusal))),
        Some(what) if what.contains(':') => {
            if kind.is_none() && is_sent(what) {
                Some(Explanation::Sent(what))
            } else {
                None
            }
        }
        Some(what) => explanation_of_number(kind.unwrap_or(Kind::Refusal), what),
    }
}

/// The kind that is asked for.
fn kind_of(options: &ArgMatches<'_>) -> Option<Kind> {
    if options.get_flag("violation") {
        Some(Kind::Violation)
    } else if options.get_flag("fault") {
        Some(Kind::Fault)
    } else if options.get_flag("framing") {
        Some(Kind::Framing)
    } else {
        None
    }
}

/// Explains `N` or `N.PART`.
fn explanation_of_number<'a>(kind: Kind, text: &str) -> Option<Explanation<'a>> {
    let explained = match text.split_once('.') {
        Some((number, part)) => kind.find(number_of(number)?, number_of(part)?)?,
        None => kind.find(number_of(text)?, 0)?,
    };
    Some(Explanation::One(explained))
}

/// What a `send` is to do.
pub fn send_of<'a>(options: &ArgMatches<'a>) -> Option<Exchange<'a>> {
    Some(Exchange {
        size: options.get_one::<u32>("size")?,
        file: options.get_str("file"),
        is_lines: sends_lines(options),
        labels: labels_of(options),
        is_settled: options.get_flag("settled"),
        ..exchange_of(options)?
    })
}

/// True if the lines of standard input are the messages: this is asked for, or nothing says what else they are.
fn sends_lines(options: &ArgMatches<'_>) -> bool {
    options.get_flag("lines")
        || !(is_given(options, "count") || is_given(options, "size") || is_given(options, "file"))
}

/// True if the option was given, and is not only as usual.
fn is_given(options: &ArgMatches<'_>, name: &str) -> bool {
    matches!(options.value_source(name), Some(ValueSource::CommandLine))
}

/// What a `receive` is to do.
pub fn receive_of<'a>(options: &ArgMatches<'a>) -> Option<Exchange<'a>> {
    Some(Exchange {
        credit: options.get_one::<u32>("credit")?,
        renewal: renewal_of(options),
        wait: options.get_one::<u32>("wait"),
        settlement: settlement_of(options),
        printed: printed_of(options),
        ..exchange_of(options)?
    })
}

/// What a `serve` is to do.
pub fn serve_of<'a>(options: &ArgMatches<'a>) -> Option<Serve<'a>> {
    let (host, port) = host_of(options)?;
    Some(Serve {
        host,
        port,
        credit: options.get_one::<u32>("credit")?,
        limit: options.get_one::<u32>("limit")?,
        count: options.get_one::<u32>("count"),
        threads: options.get_one::<u32>("threads")?,
        trace: traced_of(options),
    })
}

/// The host and the port of the options. None if a port stands behind the host and is given by its own option, too, or if the host is none.
fn host_of<'a>(options: &ArgMatches<'a>) -> Option<(&'a str, u16)> {
    let (host, port) = host_and_port(options.get_str("host")?)?;
    match port {
        None => Some((host, options.get_one::<u16>("port")?)),
        Some(_) if is_given(options, "port") => None,
        Some(port) => Some((host, port)),
    }
}

/// The peer and the address. None if a word names both and an option names a host or a port, too.
fn peer_of<'a>(options: &ArgMatches<'a>) -> Option<Place<'a>> {
    let address = match options.get_str("url") {
        None => options.get_str("address")?,
        Some(word) => match named_by(word)? {
            Named::Address(address) => address,
            Named::Place(_) if is_given(options, "host") || is_given(options, "port") => {
                return None;
            }
            Named::Place(place) => return Some(place),
        },
    };
    let (host, port) = host_of(options)?;
    Some(Place {
        host,
        port,
        address,
    })
}

/// What both have options for; the rest is as usual.
fn exchange_of<'a>(options: &ArgMatches<'a>) -> Option<Exchange<'a>> {
    let peer = peer_of(options)?;
    Some(Exchange {
        host: peer.host,
        port: peer.port,
        is_listening: options.get_flag("listen"),
        address: peer.address,
        container_id: options.get_str("container-id")?,
        max_frame: options.get_one::<u32>("max-frame")?,
        count: options.get_one::<u32>("count")?,
        patience: options.get_one::<u32>("timeout"),
        wait: None,
        size: 0,
        file: None,
        is_lines: false,
        is_polled: false,
        labels: Labels::NONE,
        is_settled: false,
        credit: 1,
        renewal: Renewal::AtZero,
        settlement: Settlement::Accept,
        printed: Printed::Nothing,
        trace: traced_of(options),
        is_quiet: options.get_flag("quiet"),
        journal: options.get_str("journal"),
        retries: options.get_one::<u32>("retries")?,
    })
}

fn labels_of<'a>(options: &ArgMatches<'a>) -> Labels<'a> {
    Labels {
        is_durable: options.get_flag("durable"),
        message_id: options.get_str("message-id"),
        correlation_id: options.get_str("correlation-id"),
        subject: options.get_str("subject"),
        reply_to: options.get_str("reply-to"),
        content_type: options.get_str("content-type"),
    }
}

fn renewal_of(options: &ArgMatches<'_>) -> Renewal {
    if options.get_flag("drain") {
        Renewal::Drain
    } else if options.get_flag("half") {
        Renewal::AtHalf
    } else {
        Renewal::AtZero
    }
}

fn settlement_of(options: &ArgMatches<'_>) -> Settlement {
    if options.get_flag("release") {
        Settlement::Release
    } else if options.get_flag("reject") {
        Settlement::Reject
    } else {
        Settlement::Accept
    }
}

fn printed_of(options: &ArgMatches<'_>) -> Printed {
    if options.get_flag("json") {
        Printed::Json
    } else if options.get_flag("sections") {
        Printed::Sections
    } else if options.get_flag("no-print") || options.get_flag("quiet") {
        Printed::Nothing
    } else {
        Printed::Bodies
    }
}

/// What a `pair` is to do.
pub fn pair_of(options: &ArgMatches<'_>) -> Options {
    Options {
        count: options.get_one::<u32>("count").unwrap_or(1),
        consumers: options.get_one::<u32>("consumers").unwrap_or(1),
        credit: options.get_one::<u32>("credit").unwrap_or(1),
        size: options.get_one::<u32>("size").unwrap_or(0),
        first_id: options.get_one::<u32>("first-id").unwrap_or(0),
        keep: options.get_one::<u32>("keep"),
        settled: options.get_flag("settled"),
    }
}

/// What a `pair` of drivers is to do, of which no option is out of its range.
pub fn drivers_of(options: &ArgMatches<'_>) -> Sockets {
    Sockets {
        ends: Ends::Both,
        port: 0,
        connections: options.get_one::<u32>("connections").unwrap_or(1),
        messages: Messages {
            count: options.get_one::<u32>("count").unwrap_or(1),
            size: options.get_one::<u32>("size").unwrap_or(0),
            settled: options.get_flag("settled"),
            credit: options.get_one::<u32>("credit").unwrap_or(1),
            range: u32::MAX,
            keep: options.get_one::<u32>("keep"),
        },
    }
}
