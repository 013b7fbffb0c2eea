//! The commands `send` and `receive`: messages to a peer, or from one, over TCP.
ghost use Rattle.std.specs.Prelude.{◌≡◌, ◌==◌, ◌||◌};

use crate::bodies::Labels;
pub use crate::meeting::client_over;
pub use crate::observed::Flushes;
use crate::printing::Printed;
use crate::progress::{Progress, Watch};
use crate::receive_again::receive_again;
pub use crate::receive_once::receive_all;
use crate::receive_once::receive_once;
use crate::report::{Output, tell_received, tell_sent};
use crate::send_again::send_again;
pub use crate::send_once::send_all;
use crate::send_once::send_once;
use amqp_client::{ClientFault, Session, Wanted, answer, open};
use amqp_conn::Role;
pub use amqp_policy::{Outcomes, Renewal};
use amqp_trace::Look;
use std::alloc::{AllocError, Global};
use std::io::{BufRead, Write};
use std::net::{Net, TcpStream};
use std::rt::{Clock, Files};
use std::{fs, io};
use thiserror::Error;

/// What is to be exchanged with which peer.
#[derive(Clone, Copy, Debug)]
pub struct Exchange<'a> {
    pub host: &'a str,
    pub port: u16,
    /// The peer connects to that port, and begins; else this end does.
    pub is_listening: bool,
    /// Of the source or the target at the peer, if this end begins.
    pub address: &'a str,
    /// This end's name, which is the link's, too.
    pub container_id: &'a str,
    /// The longest frame that this end takes, in octets: 512 at least.
    pub max_frame: u32,
    /// How many messages, unless `is_lines`.
    pub count: u32,
    /// How many seconds a connect may take, and how long a peer may be silent; `None`: there is no limit.
    pub patience: Option<u32>,
    /// How many seconds `receive` waits for the next message; `None`: there is no limit.
    pub wait: Option<u32>,
    /// How many octets a message's body has, for `send`, unless `is_lines` or there is a `file`.
    pub size: u32,
    /// The file that is each message's body, for `send`.
    pub file: Option<&'a str>,
    /// Each line of the input is a message, for `send`.
    pub is_lines: bool,
    /// The lines are those of the process's standard input, which may have nothing ready: what was sent is written then.
    pub is_polled: bool,
    /// Header and properties of each message, for `send`.
    pub labels: Labels<'a>,
    /// Each message is sent settled, for `send`.
    pub is_settled: bool,
    /// How many messages may come at a time, for `receive`: 1 at least.
    pub credit: u32,
    /// When credit is granted, for `receive`. Some peers send more than they were granted if it is granted before it is used up.
    pub renewal: Renewal,
    /// What the peer is answered for each message, for `receive`; with a `journal` each is accepted.
    pub settlement: Settlement,
    /// What is printed of each message, for `receive`.
    pub printed: Printed,
    /// How each frame is printed on standard error; `None`: it is not.
    pub trace: Option<Look>,
    /// No progress is printed on standard error. None is printed either if frames are, or something of each message.
    pub is_quiet: bool,
    /// The file that says what became of each message: with it a connection that is lost is taken up again, and a run that was killed.
    pub journal: Option<&'a str>,
    /// How many connections in a row may bring nothing; of no use without a `journal`.
    pub retries: u32,
}

impl<'a> Exchange<'a> {
    /// The link that this end asks for, for this role of ours.
    pub(crate) fn wanted(&self, role: Role) -> Wanted<'a> {
        Wanted {
            name: self.container_id,
            role,
            address: self.address,
        }
    }

    /// Progress is printed.
    fn is_told(&self) -> bool {
        !self.is_quiet && self.trace.is_none() && matches!(self.printed, Printed::Nothing)
    }

    /// Nothing is printed beside the messages.
    fn is_alone(&self) -> bool {
        matches!(self.printed, Printed::Bodies | Printed::Json)
    }

    /// Returns how many messages there are to be; `None` if that depends on the input's lines.
    fn count_known(&self) -> Option<u32> {
        if self.is_lines {
            None
        } else {
            Some(self.count)
        }
    }
}

/// The outcome that `receive` sends for each message that it takes (part 3, 3.4).
#[derive(Clone, Copy, Debug, PartialEq, Eq)]
pub enum Settlement {
    Accept,
    /// The peer may send the message again, to anyone.
    Release,
    Reject,
}

/// What `send` has done.
#[derive(Clone, Copy, PartialEq, Eq)]
pub struct Sent {
    pub count: u64,
    pub outcomes: Outcomes,
}

/// What `receive` has taken.
#[derive(Clone, Copy, PartialEq, Eq)]
pub struct Received {
    pub count: u64,
    /// Of whole messages, with the heads of their sections.
    pub octets: u64,
    /// Those of these messages that could not be settled, since the link was gone: the peer may send them again. With a journal, those whose outcome the peer is
    /// not known to have heard: it may ask for that again.
    pub unsettled: u64,
}

impl Sent {
    /// Nothing was sent yet.
    pub(crate) const NONE: Sent = Sent {
        count: 0,
        outcomes: Outcomes::NONE,
    };
}

impl Received {
    /// Nothing was taken yet.
    pub(crate) const NONE: Received = Received {
        count: 0,
        octets: 0,
        unsettled: 0,
    };
}

/// Why an exchange fails.
#[derive(Debug, Drop, Error)]
pub enum ExchangeFault {
    #[error("a socket failed: {0}")]
    Socket(io::Error),
    #[error("{0}: {1}")]
    NotMet(String, io::Error),
    #[error("no peer has connected")]
    NoPeer,
    #[error("a read failed: {0}")]
    Read(io::Error),
    #[error("a write failed: {0}")]
    Write(io::Error),
    #[error("no message came for {0} seconds")]
    NoMessage(u32),
    #[error("the peer does not recover links")]
    NoRecovery,
    #[error("{0}")]
    Client(ClientFault),
    #[error("a line cannot be read: {0}")]
    In(io::Error),
    #[error("the file cannot be read: {0}")]
    File(io::Error),
    #[error("a message cannot be written: it is too long, or its content-type is not of ASCII")]
    NotWritable,
    #[error("a write failed: {0}")]
    Out(io::Error),
    #[error("{0} of the messages could not be accepted: the peer may send them again")]
    Unsettled(u64),
    #[error("{0} of the messages were accepted, and the peer may ask for that again")]
    Doubted(u64),
    #[error("the journal failed: {0}")]
    Journal(io::Error),
    #[error("line {0} of the journal is none, or cannot stand there")]
    NoLine(u64),
    #[error("the journal is of another link")]
    OtherLink,
    #[error("the journal has more messages than there are")]
    TooFew,
    #[error("memory was refused")]
    NoMemory,
}

impl From<ClientFault> for ExchangeFault {
    fn from(fault: ClientFault) -> ExchangeFault {
        ExchangeFault::Client(fault)
    }
}

impl From<AllocError> for ExchangeFault {
    fn from(_: AllocError) -> ExchangeFault {
        ExchangeFault::NoMemory
    }
}

/// Sends messages, learns what became of each, and writes six lines to `out`, also if that fails: how many were sent, accepted, rejected, released, modified, and
/// settled without an outcome. Returns true if each was accepted, or they went settled.
///
/// # Errors
///
/// A socket failed, the peer ended the exchange, an operation was refused, memory ran out, a line or the file could not be read, or a line could not be written.
/// The peer's error is printed on standard error.
pub fn run_send<R, I: BufRead, W: Write>(
    rt: &R,
    alloc: Global,
    exchange: &Exchange<'_>,
    input: &mut I,
    out: &mut W,
) -> Result<bool, ExchangeFault>
where
    R: AllocGlobal + Net<Stream = TcpStream> + Eprint + Clock + Files,
{
    let file = file_of(rt, exchange.file)?;
    let mut progress = Progress::new(rt, exchange.is_told(), exchange.count_known());
    let mut output = Output::new(alloc, exchange.printed, out, &mut progress);
    let mut sent = Sent::NONE;
    let ended = match exchange.journal {
        Some(path) => send_again(rt, exchange, path, file, input, &mut sent, &mut output),
        None => send_once(rt, alloc, exchange, file, input, &mut sent, &mut output),
    };
    output.end();
    drop(output);
    let told = tell_sent(out, &sent);
    ended_so(ended, told)?;
    Ok(is_sent(exchange.is_settled, &sent))
}

/// Each message was accepted, or they went settled.
fn is_sent(is_settled: bool, sent: &Sent) -> bool
    ensures { result ≡ (is_settled || sent.now.outcomes.accepted == sent.now.count) }
{
    is_settled || sent.outcomes.accepted == sent.count
}

/// How an exchange ended whose counts were printed: its own fault comes first.
fn ended_so(
    ended: Result<(), ExchangeFault>,
    told: Result<(), ExchangeFault>,
) -> Result<(), ExchangeFault> {
    match ended {
        Ok(()) => told,
        Err(fault) => {
            drop(told);
            Err(fault)
        }
    }
}

/// Takes messages, prints what is asked for of each, settles it, and writes three lines to `out`, also if that fails: how many were received, how many octets they
/// had, and how many could not be settled. If bodies or JSON are printed, `out` has nothing beside them, and the counts of a run that fails go to standard error.
/// Returns true if each was settled, or came settled.
///
/// # Errors
///
/// Those of `run_send`; `NoMessage` if `wait` runs out; `Unsettled` and `Doubted` if no line says so.
pub fn run_receive<R, W: Write>(
    rt: &R,
    alloc: Global,
    exchange: &Exchange<'_>,
    out: &mut W,
) -> Result<bool, ExchangeFault>
where
    R: AllocGlobal + Net<Stream = TcpStream> + Eprint + Clock + Files,
{
    let mut progress = Progress::new(rt, exchange.is_told(), exchange.count_known());
    let mut output = Output::new(alloc, exchange.printed, out, &mut progress);
    let mut received = Received::NONE;
    let ended = match exchange.journal {
        Some(path) => receive_again(rt, exchange, path, &mut received, &mut output),
        None => receive_once(rt, alloc, exchange, &mut received, &mut output),
    };
    output.end();
    drop(output);
    let told = if exchange.is_alone() {
        say_unless_done(rt, &received, ended.is_err());
        unless_unsettled(exchange, received)
    } else {
        tell_received(out, received)
    };
    ended_so(ended, told)?;
    Ok(received.unsettled == 0)
}

/// Prints what a run has taken that failed, on standard error: standard output has the messages alone.
fn say_unless_done<R: Eprint>(rt: &R, received: &Received, is_failed: bool) {
    if is_failed {
        let Received {
            count,
            octets,
            unsettled,
        } = *received;
        let _ = eprintln!(rt; "received {count}, octets {octets}, unsettled {unsettled}");
    }
}

/// Messages that could not be accepted are a fault if no line says how many they are.
fn unless_unsettled(exchange: &Exchange<'_>, received: Received) -> Result<(), ExchangeFault> {
    match exchange.journal {
        _ if received.unsettled == 0 => Ok(()),
        Some(_) => Err(ExchangeFault::Doubted(received.unsettled)),
        None => Err(ExchangeFault::Unsettled(received.unsettled)),
    }
}

/// The octets of the file, if there is one.
fn file_of<R: AllocGlobal + Files>(
    rt: &R,
    file: Option<&str>,
) -> Result<Option<Vec<u8>>, ExchangeFault> {
    match file {
        Some(path) => match fs::read(rt, path) {
            Ok(octets) => Ok(Some(octets)),
            Err(error) => Err(ExchangeFault::File(error)),
        },
        None => Ok(None),
    }
}

/// The session and its link.
pub(crate) fn begin<S: Session>(
    session: &mut S,
    exchange: &Exchange<'_>,
    role: Role,
) -> Result<(), ExchangeFault> {
    let begun = if exchange.is_listening {
        answer(session, role)
    } else {
        open(session, exchange.wanted(role))
    };
    begun.map_err(ExchangeFault::Client)
}
