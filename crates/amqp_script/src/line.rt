//! What a line of a script says.
ghost use Rattle.std.specs.Prelude.{◌≡◌};
ghost use Rattle.amqp_script.specs.declared.line.LineFault.TheVariants.{NoMemory};

use crate::answer::Answer;
use crate::words::{Words, text};
use amqp_endpoint::endpoint::Endpoint;
use amqp_endpoint::op::{Op, Rejoin};
use amqp_frames::{Frame, FrameFault, Framer, Role};
use amqp_types::Boxed;
use amqp_waiting::Brought;
use bytes::Bytes;
use std::alloc::{AllocError, AllocFailed, Global};
use thiserror::Error;

/// The longest frame that is heard, in octets.
const MAX_FRAME: u32 = 65536;

/// A line of a script.
#[derive(Drop)]
pub enum Line {
    /// The peer takes frames of so many octets: `opened MAX`.
    Opened(u32),
    /// An operation of the application: each other line that is not below.
    Own(Op),
    /// A frame that the peer sent: `hear HEX`.
    Hear(Frame),
    Ask(Question),
}

/// What a line asks of an endpoint.
#[derive(Clone, Copy)]
pub enum Question {
    /// The windows of the session: `windows`.
    Windows,
    /// The link with this number: `link LINK`.
    Link(u32),
    /// The unsettled deliveries of this role of ours: `held ROLE`.
    Held(Role),
    /// The deliveries that wait on the link with this number: `waiting LINK`.
    Waiting(u32),
}

impl Question {
    /// What the endpoint shows.
    pub fn answer(self, endpoint: &Endpoint) -> Answer<'_> {
        match self {
            Question::Windows => Answer::Windows(endpoint.windows()),
            Question::Link(link) => Answer::Link(link, endpoint.status(link)),
            Question::Held(role) => Answer::Held(endpoint, role),
            Question::Waiting(link) => Answer::Waiting(endpoint, link),
        }
    }
}

/// Why octets give no line.
#[derive(Clone, Copy, Debug, Error)]
pub enum LineFault {
    #[error("bad line")]
    Bad,
    #[error("out of memory")]
    NoMemory,
}

impl<T: Drop> From<AllocFailed<T>> for LineFault {
    ghost from_gives = { λ _ fault. fault ≡ NoMemory };

    fn from(_error: AllocFailed<T>) -> LineFault {
        LineFault::NoMemory
    }
}

impl From<AllocError> for LineFault {
    ghost from_gives = { λ _ fault. fault ≡ NoMemory };

    fn from(_error: AllocError) -> LineFault {
        LineFault::NoMemory
    }
}

impl Line {
    /// The line that these octets write, without the newline.
    pub fn read(alloc: Global, octets: &[u8]) -> Result<Line, LineFault> {
        let mut words = Words::of(octets);
        match words.word()? {
            b"hear" => read_hear(alloc, words),
            b"start" => read_start(alloc, words),
            b"carry" => read_carry(alloc, words),
            b"dispose" => read_dispose(words),
            b"windows" => ended(words, Line::Ask(Question::Windows)),
            b"link" => read_link(words),
            b"held" => read_held(words),
            b"waiting" => read_waiting(words),
            word => read_session(alloc, word, words),
        }
    }
}

/// The lines of the session and of a link's credit.
fn read_session(alloc: Global, first: &[u8], words: Words<'_>) -> Result<Line, LineFault> {
    match first {
        b"opened" => read_opened(words),
        b"begin" => ended(words, Line::Own(Op::Begin)),
        b"attach" => read_attach(alloc, words),
        b"grant" => read_grant(words),
        b"offer" => read_offer(words),
        b"refresh" => read_refresh(words),
        b"rejoin" => read_rejoin(alloc, words),
        b"resume" => read_resume(words),
        b"end" => ended(words, Line::Own(Op::End { error: None })),
        b"beat" => ended(words, Line::Own(Op::Beat)),
        word => read_of_link(word, words),
    }
}

/// `LINK`, of an operation that says no more.
fn read_of_link(first: &[u8], mut words: Words<'_>) -> Result<Line, LineFault> {
    let link = words.number()?;
    let op = match first {
        b"abort" => Op::Abort { link },
        b"take" => Op::Take { link },
        b"learn" => Op::Learn { link },
        b"drained" => Op::Drained { link },
        b"detach" => Op::Detach { link, error: None },
        b"suspend" => Op::Suspend { link },
        _ => return Err(LineFault::Bad),
    };
    ended(words, Line::Own(op))
}

/// The line, where no word is left.
fn ended(words: Words<'_>, line: Line) -> Result<Line, LineFault> {
    match words.end() {
        Ok(()) => Ok(line),
        Err(fault) => {
            drop(line);
            Err(fault)
        }
    }
}

/// `MAX`
fn read_opened(mut words: Words<'_>) -> Result<Line, LineFault> {
    let max = words.number()?;
    ended(words, Line::Opened(max))
}

/// `ROLE NAME SND RCV COUNT MAX`, without source and target
fn read_attach(alloc: Global, mut words: Words<'_>) -> Result<Line, LineFault> {
    let role = words.role()?;
    let name = words.word()?;
    let snd = words.octet()?;
    let rcv = words.octet()?;
    let count = words.number()?;
    let max_message = words.long()?;
    let name = text(alloc, name)?;
    let op = Op::Attach {
        name,
        role,
        snd,
        rcv,
        source: None,
        target: None,
        count,
        max_message,
    };
    ended(words, Line::Own(op))
}

/// `LINK TAG FORMAT SETTLED MORE HEX`
fn read_start(alloc: Global, mut words: Words<'_>) -> Result<Line, LineFault> {
    let link = words.number()?;
    let tag = words.tag()?;
    let format = words.number()?;
    let settled = words.truth()?;
    let more = words.truth()?;
    let payload = Bytes::from_vec(words.octets(alloc)?)?;
    let op = Op::Start {
        link,
        tag,
        format,
        settled,
        payload,
        more,
    };
    ended(words, Line::Own(op))
}

/// `LINK MORE HEX`
fn read_carry(alloc: Global, mut words: Words<'_>) -> Result<Line, LineFault> {
    let link = words.number()?;
    let more = words.truth()?;
    let payload = Bytes::from_vec(words.octets(alloc)?)?;
    ended(
        words,
        Line::Own(Op::Carry {
            link,
            payload,
            more,
        }),
    )
}

/// `LINK CREDIT DRAIN ECHO`
fn read_grant(mut words: Words<'_>) -> Result<Line, LineFault> {
    let link = words.number()?;
    let credit = words.number()?;
    let drain = words.truth()?;
    let echo = words.truth()?;
    ended(
        words,
        Line::Own(Op::Grant {
            link,
            credit,
            drain,
            echo,
        }),
    )
}

/// `LINK AVAILABLE`
fn read_offer(mut words: Words<'_>) -> Result<Line, LineFault> {
    let link = words.number()?;
    let available = words.number()?;
    ended(words, Line::Own(Op::Offer { link, available }))
}

/// `ECHO`
fn read_refresh(mut words: Words<'_>) -> Result<Line, LineFault> {
    let echo = words.truth()?;
    ended(words, Line::Own(Op::Refresh { echo }))
}

/// `ROLE FIRST LAST SETTLED STATE`
fn read_dispose(mut words: Words<'_>) -> Result<Line, LineFault> {
    let role = words.role()?;
    let first = words.number()?;
    let last = words.number()?;
    let settled = words.truth()?;
    let state = words.state()?;
    let op = Op::Dispose {
        role,
        first,
        last,
        settled,
        state,
    };
    ended(words, Line::Own(op))
}

/// `ROLE NAME SND RCV COUNT MAX ITEMS`, without source and target
fn read_rejoin(alloc: Global, mut words: Words<'_>) -> Result<Line, LineFault> {
    let role = words.role()?;
    let name = words.word()?;
    let snd = words.octet()?;
    let rcv = words.octet()?;
    let count = words.number()?;
    let max_message = words.long()?;
    let items = Brought::new(alloc, words.items(alloc)?)?;
    words.end()?;
    let name = text(alloc, name)?;
    let rejoin = Rejoin {
        name,
        role,
        snd,
        rcv,
        source: None,
        target: None,
        count,
        max_message,
        items,
    };
    Ok(Line::Own(Op::Rejoin(Boxed::new(alloc, rejoin)?)))
}

/// `LINK TAG SETTLED`
fn read_resume(mut words: Words<'_>) -> Result<Line, LineFault> {
    let link = words.number()?;
    let tag = words.tag()?;
    let settled = words.truth()?;
    ended(words, Line::Own(Op::Resume { link, tag, settled }))
}

/// `LINK`
fn read_waiting(mut words: Words<'_>) -> Result<Line, LineFault> {
    let link = words.number()?;
    ended(words, Line::Ask(Question::Waiting(link)))
}

/// `LINK`
fn read_link(mut words: Words<'_>) -> Result<Line, LineFault> {
    let link = words.number()?;
    ended(words, Line::Ask(Question::Link(link)))
}

/// `ROLE`
fn read_held(mut words: Words<'_>) -> Result<Line, LineFault> {
    let role = words.role()?;
    ended(words, Line::Ask(Question::Held(role)))
}

/// Words that write one whole frame
fn read_hear(alloc: Global, words: Words<'_>) -> Result<Line, LineFault> {
    let octets = words.joined_octets(alloc)?;
    let mut framer = Framer::new(alloc, MAX_FRAME);
    match framer.feed(octets.as_slice()) {
        Ok((used, Some(frame))) => whole(octets.len(), used, frame),
        Ok((_, None)) => Err(LineFault::Bad),
        Err(FrameFault::NoMemory) => Err(LineFault::NoMemory),
        Err(_) => Err(LineFault::Bad),
    }
}

/// The line, where the frame has all octets.
fn whole(octets: usize, used: usize, frame: Frame) -> Result<Line, LineFault> {
    if used == octets {
        Ok(Line::Hear(frame))
    } else {
        drop(frame);
        Err(LineFault::Bad)
    }
}
