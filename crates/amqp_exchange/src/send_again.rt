//! The command `send` with a journal: each message goes once, over as many connections as it takes, in as many runs.
ghost use Rattle.std.specs.Prelude.{◌≡◌};
ghost use Rattle.amqp_exchange.specs.Resuming.{after_verdict};

use crate::again::{GoesOn, flush, go_over_all, most_in_doubt, turn};
use crate::bodies::{Bodies, Supply};
use crate::exchange::{Exchange, ExchangeFault, Sent};
use crate::journal::{Journal, Line, Notes};
use crate::observed::{Flushes, has_unwritten};
use crate::queued::Queued;
use crate::recalling::{Recalls, recall_journal};
use crate::rejoining::Rejoining;
use crate::report::Reports;
use crate::streaming::Next;
use amqp_client::{End, LINK, Session, finish, number_of, resume, send, settle};
use amqp_conn::{Bytes, Role, Tag, Verdict};
use amqp_policy::{Begun, Outcome, SentDoubts};
use std::alloc::{AllocError, Global};
use std::io::BufRead;
use std::net::{Net, TcpStream};
use std::rt::{Clock, Files};

/// The messages that have begun. The octets of one in doubt are kept; `None` until the input was read up to it.
type Known = SentDoubts<Option<Bytes>>;

/// The tags of what is in doubt.
fn tags_of(alloc: Global, known: &Known) -> Result<Vec<Tag>, AllocError> {
    let mut tags = Vec::new(alloc);
    for place in 0..known.len() {
        if let Some(number) = known.number_at(place) {
            if let Some(tag) = Tag::new(&number.to_be_bytes()) {
                tags.push(tag)?;
            }
        }
    }
    Ok(tags)
}

/// Returns the message with this number, if it is in doubt.
fn message_of(known: &Known, number: u32) -> Result<Option<Bytes>, AllocError> {
    match known.kept(number) {
        Some(Some(message)) => Ok(Some(message.clone()?)),
        _ => Ok(None),
    }
}

impl Recalls for Known {
    fn recall(&mut self, line: &Line<'_>) -> Result<bool, ExchangeFault> {
        match line {
            Line::Told(outcome, number) => Ok(self.recall_ended(*number, *outcome)),
            Line::Begun(number) => Ok(self.recall_begun(*number, None)?),
            _ => Ok(false),
        }
    }
}

/// What is done with a message in doubt once the peer's attach has said what it has of it (part 2, 2.6.13).
#[derive(Clone, Copy, Debug, PartialEq, Eq)]
enum Resumption {
    /// Its outcome is known.
    End,
    /// The peer has none of it, or a part: it goes once more.
    SendAgain,
    /// The peer has it, and will say what becomes of it.
    Await,
}

fn after_verdict(verdict: Verdict) -> Resumption
    ensures { result ≡ after_verdict verdict }
{
    match verdict {
        Verdict::Outcome => Resumption::End,
        Verdict::Absent | Verdict::Partial => Resumption::SendAgain,
        Verdict::Held | Verdict::Unclear => Resumption::Await,
    }
}

/// The messages of an exchange, and its journal.
#[derive(Drop)]
pub(crate) struct Sends<'a, N, B> {
    exchange: &'a Exchange<'a>,
    notes: N,
    bodies: B,
    known: Known,
    alloc: Global,
    /// The message that is to begin next, if it was looked for.
    pending: Option<Bytes>,
    /// There are no more messages.
    is_over: bool,
    link: Rejoining,
    /// What was put out since the peer was heard last.
    queued: Queued,
}

/// As `run_send`, with the journal at this path. `sent` is what came of it in all runs, also if this one fails.
pub(crate) fn send_again<R, I: BufRead, T: Reports>(
    rt: &R,
    exchange: &Exchange<'_>,
    path: &str,
    file: Option<Vec<u8>>,
    input: &mut I,
    sent: &mut Sent,
    reports: &mut T,
) -> Result<(), ExchangeFault>
where
    R: AllocGlobal + Net<Stream = TcpStream> + Eprint + Clock + Files,
{
    let bodies = Bodies::new(rt.alloc(), exchange, file, input)?;
    match sends_of(rt, exchange, path, bodies) {
        Ok(mut sends) => {
            let ended = send_on(rt, exchange, &mut sends, reports);
            *sent = Sent {
                count: u64::from(sends.known.next()),
                outcomes: sends.known.outcomes(),
            };
            drop(sends);
            ended
        }
        Err(fault) => Err(fault),
    }
}

/// Returns these messages, with what the journal at this path says of them.
fn sends_of<'a, R: AllocGlobal + Files, B: Drop>(
    rt: &R,
    exchange: &'a Exchange<'a>,
    path: &str,
    bodies: B,
) -> Result<Sends<'a, Journal<R::File>, B>, ExchangeFault> {
    let mut known: Known = SentDoubts::new(rt.alloc());
    match recall_journal(rt, path, Role::Sender, &mut known) {
        Ok(notes) => Ok(Sends::with(rt.alloc(), exchange, notes, bodies, known)),
        Err(fault) => {
            drop(bodies);
            drop(known);
            Err(fault)
        }
    }
}

fn send_on<R, N: Notes, B: Supply, T: Reports>(
    rt: &R,
    exchange: &Exchange<'_>,
    sends: &mut Sends<'_, N, B>,
    reports: &mut T,
) -> Result<(), ExchangeFault>
where
    R: AllocGlobal + Net<Stream = TcpStream> + Eprint + Clock,
{
    sends.skip()?;
    go_over_all(rt, exchange, sends, reports)
}

impl<N: Notes, B: Supply> GoesOn for Sends<'_, N, B> {
    /// Each message was sent, and has its outcome.
    fn is_done(&self) -> bool {
        self.is_over && self.known.is_empty()
    }

    fn has_all(&self) -> bool {
        false
    }

    fn noted(&self) -> u64 {
        self.notes.noted()
    }

    fn has_asked(&self) -> bool {
        self.link.has_asked(self.notes.noted())
    }

    fn forgo(&mut self) {
        self.link.forgo();
    }

    fn go_on<S: Flushes, T: Reports>(
        &mut self,
        session: &mut S,
        reports: &mut T,
    ) -> Result<(), ExchangeFault> {
        self.join(session)?;
        self.resume_all(session)?;
        self.send_rest(session, reports)?;
        session.end_mut().give_up();
        self.await_outcomes(session)?;
        finish(session).map_err(ExchangeFault::Client)
    }

    /// Outcomes that came before the end count, too.
    fn wind_up<S: Session, T: Reports>(
        &mut self,
        session: &mut S,
        _is_fault_of_it: bool,
        _reports: &mut T,
    ) -> Result<(), ExchangeFault> {
        self.learn(session)?;
        self.notes.sync()
    }
}

impl<'a, N, B> Sends<'a, N, B> {
    /// The messages of an exchange of which so much is known.
    fn with(
        alloc: Global,
        exchange: &'a Exchange<'a>,
        notes: N,
        bodies: B,
        known: Known,
    ) -> Sends<'a, N, B> {
        Sends {
            exchange,
            notes,
            bodies,
            known,
            alloc,
            pending: None,
            is_over: false,
            link: Rejoining::new(Role::Sender),
            queued: Queued::NONE,
        }
    }

    /// The messages of an exchange of which these notes know nothing yet.
    #[cfg(test)]
    pub(crate) fn new(
        alloc: Global,
        exchange: &'a Exchange<'a>,
        notes: N,
        bodies: B,
    ) -> Sends<'a, N, B> {
        Sends::with(alloc, exchange, notes, bodies, SentDoubts::new(alloc))
    }

    /// How many messages have begun.
    #[cfg(test)]
    pub(crate) fn count(&self) -> u64 {
        u64::from(self.known.next())
    }
}

impl<N: Notes, B: Supply> Sends<'_, N, B> {
    /// Reads over what has begun, and keeps of it what is in doubt.
    fn skip(&mut self) -> Result<(), ExchangeFault> {
        let mut number = 0;
        for _ in 0..u64::MAX {
            if number >= self.known.next() {
                break;
            }
            match self.bodies.next()? {
                Next::Item(message) => {
                    self.known.keep(number, Some(message));
                    number = number.saturating_add(1);
                }
                Next::NotYet => self.bodies.await_ready(None),
                Next::Over => return Err(ExchangeFault::TooFew),
            }
        }
        if self.known.next() == 0 {
            return Ok(());
        }
        self.look()
    }

    /// Looks for the message that is to begin next.
    fn look(&mut self) -> Result<(), ExchangeFault> {
        if self.pending.is_none() && !self.is_over {
            match self.bodies.next()? {
                Next::Item(message) => self.pending = Some(message),
                Next::NotYet => {}
                Next::Over => self.is_over = true,
            }
        }
        Ok(())
    }

    /// Attaches the link, which brings in what is in doubt.
    fn join<S: Session>(&mut self, session: &mut S) -> Result<(), ExchangeFault> {
        self.known.bring();
        let tags = tags_of(self.alloc, &self.known)?;
        self.link
            .join(session, self.exchange, &mut self.notes, tags)
    }

    /// Notes the outcomes that the peer has sent until now, and settles them.
    fn learn<S: Session>(&mut self, session: &mut S) -> Result<(), ExchangeFault> {
        for _ in 0..u64::MAX {
            match session.end_mut().told() {
                Ok(Some(told)) if told.is_last() => {
                    self.note_end(told.number, told.outcome)?;
                    settle(session, told)?;
                }
                Ok(Some(_)) => {}
                Ok(None) => break,
                Err(fault) => return Err(ExchangeFault::Client(fault)),
            }
        }
        Ok(())
    }

    /// Notes the outcome of a message. A second one is passed over.
    fn note_end(&mut self, number: u32, outcome: Outcome) -> Result<(), ExchangeFault> {
        if self.known.end(number, outcome) {
            return self.notes.note(&Line::Told(outcome, number));
        }
        Ok(())
    }

    /// Writes what was put out, and learns what the peer has said until now, without waiting for more.
    fn hear<S: Flushes, T: Reports>(
        &mut self,
        session: &mut S,
        reports: &T,
    ) -> Result<(), ExchangeFault> {
        self.queued = Queued::NONE;
        flush(session, &mut self.notes, reports.elapsed())?;
        self.learn(session)
    }

    fn await_room<S: Session>(&mut self, session: &mut S) -> Result<(), ExchangeFault> {
        for _ in 0..u64::MAX {
            self.learn(session)?;
            if session.end().has_room() {
                break;
            }
            turn(session, &mut self.notes)?;
        }
        Ok(())
    }

    fn await_outcomes<S: Session>(&mut self, session: &mut S) -> Result<(), ExchangeFault> {
        for _ in 0..u64::MAX {
            self.learn(session)?;
            if self.known.is_empty() {
                break;
            }
            turn(session, &mut self.notes)?;
        }
        self.notes.sync()
    }

    /// What is in doubt is resumed, or sent again, in its order, before anything else begins.
    fn resume_all<S: Session>(&mut self, session: &mut S) -> Result<(), ExchangeFault> {
        for _ in 0..u64::MAX {
            match self.known.brought_at(0) {
                Some(number) => self.resume_one(session, number)?,
                None => break,
            }
        }
        self.resume_ended(session)
    }

    /// Resumes what still waits: the outcome of each is known.
    fn resume_ended<S: Session>(&mut self, session: &mut S) -> Result<(), ExchangeFault> {
        for _ in 0..u64::MAX {
            match session.end().waiting() {
                Some((tag, verdict)) => {
                    self.await_room(session)?;
                    self.resume_as(session, tag, verdict)?;
                }
                None => break,
            }
        }
        Ok(())
    }

    /// What the peer has stays there, what it has not goes once more, and what became of it is noted if the peer has said that.
    fn resume_one<S: Session>(
        &mut self,
        session: &mut S,
        number: u32,
    ) -> Result<(), ExchangeFault> {
        self.await_room(session)?;
        let resumption = match waiting_of(session.end(), number) {
            Some((tag, verdict)) => self.resume_as(session, tag, verdict)?,
            // It was not brought in: the peer has none of it.
            None if self.link.is_plain() => Resumption::SendAgain,
            None => Resumption::Await,
        };
        self.known.resolve(number);
        match resumption {
            Resumption::SendAgain => self.send_once_more(session, number),
            Resumption::End | Resumption::Await => Ok(()),
        }
    }

    /// Resumes a delivery that waits, and notes its outcome if the peer has said it.
    fn resume_as<S: Session>(
        &mut self,
        session: &mut S,
        tag: Tag,
        verdict: Verdict,
    ) -> Result<Resumption, ExchangeFault> {
        self.notes.sync()?;
        let resumption = after_verdict(verdict);
        let outcome = resume(session, tag, resumption == Resumption::End)?;
        if resumption == Resumption::End {
            self.note_end(number_of(&tag), outcome)?;
        }
        Ok(resumption)
    }

    /// Sends a message that is in doubt; one that is not has its outcome, and goes no more.
    fn send_once_more<S: Session>(
        &mut self,
        session: &mut S,
        number: u32,
    ) -> Result<(), ExchangeFault> {
        match message_of(&self.known, number)? {
            Some(message) => {
                let sent = self.put(session, number, &message);
                drop(message);
                sent
            }
            None => Ok(()),
        }
    }

    /// Puts the message out, as soon as there is room for it.
    fn put<S: Session>(
        &mut self,
        session: &mut S,
        number: u32,
        message: &Bytes,
    ) -> Result<(), ExchangeFault> {
        self.await_room(session)?;
        if !session.end().is_short(message) {
            self.notes.sync()?;
        }
        self.queued.add(message.len());
        send(session, number, message, false).map_err(ExchangeFault::Client)
    }

    /// Sends what has not begun.
    fn send_rest<S: Flushes, T: Reports>(
        &mut self,
        session: &mut S,
        reports: &mut T,
    ) -> Result<(), ExchangeFault> {
        let most = most_in_doubt(session.end());
        for _ in 0..u64::MAX {
            self.look()?;
            if self.is_over || !self.known.may_begin() {
                break;
            }
            if self.pending.is_none() {
                self.await_input(session, reports)?;
                continue;
            }
            if self.queued.is_full() {
                self.hear(session, reports)?;
            }
            self.send_or_wait(session, most, reports)?;
        }
        Ok(())
    }

    /// The input has nothing ready: what was put out is written, and the peer is heard until there is input.
    fn await_input<S: Flushes, T: Reports>(
        &mut self,
        session: &mut S,
        reports: &T,
    ) -> Result<(), ExchangeFault> {
        self.hear(session, reports)?;
        if !has_unwritten(session.end()) {
            self.bodies.await_ready(session.socket());
        }
        Ok(())
    }

    /// Sends the message that was looked for, unless so many are in doubt.
    fn send_or_wait<S: Flushes, T: Reports>(
        &mut self,
        session: &mut S,
        most: usize,
        reports: &mut T,
    ) -> Result<(), ExchangeFault> {
        self.await_room(session)?;
        if self.known.len() >= most {
            return turn(session, &mut self.notes);
        }
        self.notes.note(&Line::Begun(self.known.next()))?;
        match self.known.begin(self.pending.take())? {
            Begun::Number(number) => {
                self.send_once_more(session, number)?;
                reports.note(u64::from(self.known.next()));
            }
            Begun::Unresolved | Begun::NoNumber => {}
        }
        Ok(())
    }
}

/// The delivery with this number, if it waits to be resumed, and what becomes of it.
fn waiting_of(end: &End, number: u32) -> Option<(Tag, Verdict)> {
    let endpoint = end.conn().logged().endpoint();
    for place in 0..u32::MAX {
        match endpoint.waiting_at(LINK, place as usize) {
            Some((tag, verdict)) if number_of(tag) == number => return Some((*tag, verdict)),
            Some(_) => {}
            None => return None,
        }
    }
    None
}
