//! The command `receive` with a journal: each message is written out once, over as many connections as it takes, in as many runs.
ghost use Rattle.std.specs.Prelude.{◌↔◌, ◌≤◌, IsTrue};

use crate::again::{GoesOn, go_over_all, most_in_doubt, turn};
use crate::credit::{credit_due, incoming_of};
use crate::exchange::{Exchange, ExchangeFault, Received};
use crate::journal::{FileId, Journal, Line, Notes};
use crate::observed::Flushes;
use crate::printing::Printed;
use crate::printout::{LastPrint, cut_output, output_file, output_length};
use crate::recalling::{Recalls, recall_journal};
use crate::receive_once::within;
use crate::rejoining::Rejoining;
use crate::report::{Came, Reports, show_taken};
use amqp_client::{ClientFault, End, Session, finish, grant, settle_as};
use amqp_conn::{
    Boxed, CloseRefusal, ConnFault, DeliveryState, PumpFault, Refusal, Role, Tag, Taken,
};
use amqp_policy::{Incoming, ReceivedDoubts};
use std::alloc::{AllocError, Global};
use std::io;
use std::net::{Net, TcpStream};
use std::rt::{Clock, Files};

/// What a journal says of earlier runs.
#[derive(Drop)]
struct Recalled {
    known: ReceivedDoubts,
    last: LastPrint,
}

impl Recalled {
    fn into_known(self) -> ReceivedDoubts {
        let Recalled { known, last: _ } = self;
        known
    }
}

impl Recalls for Recalled {
    fn recall(&mut self, line: &Line<'_>) -> Result<bool, ExchangeFault> {
        self.last.recall(line);
        match line {
            Line::Output(_) | Line::Printing(_, _) => Ok(true),
            Line::Taken(tag, octets) => {
                self.known.take(*tag, *octets)?;
                Ok(true)
            }
            Line::Settled(tag) => Ok(self.known.settle(tag)),
            _ => Ok(false),
        }
    }
}

/// Returns whether as many messages were printed as are asked for.
fn has_all(known: &ReceivedDoubts, count: u32) -> bool
    ensures { IsTrue result ↔ (count ≤ known.now.count) }
{
    known.count() >= u64::from(count)
}

/// The tags of what is in doubt, all of which came over earlier connections.
fn tags_of(alloc: Global, known: &ReceivedDoubts) -> Result<Vec<Tag>, AllocError> {
    let mut tags = Vec::new(alloc);
    for place in 0..known.brought_len() {
        if let Some(tag) = known.brought_at(place) {
            tags.push(tag)?;
        }
    }
    Ok(tags)
}

/// The messages of an exchange, and its journal.
#[derive(Drop)]
pub(crate) struct Receives<'a, N> {
    exchange: &'a Exchange<'a>,
    notes: N,
    known: ReceivedDoubts,
    alloc: Global,
    link: Rejoining,
    /// The file that messages are printed to, if it is one.
    output: Option<FileId>,
    /// The journal names that file.
    is_output_noted: bool,
}

/// As `run_receive`, with the journal at this path. `received` is what came of it in all runs, also if this one fails.
pub(crate) fn receive_again<R, T: Reports>(
    rt: &R,
    exchange: &Exchange<'_>,
    path: &str,
    received: &mut Received,
    reports: &mut T,
) -> Result<(), ExchangeFault>
where
    R: AllocGlobal + Net<Stream = TcpStream> + Eprint + Clock + Files,
{
    match receives_of(rt, exchange, path) {
        Ok(mut receives) => {
            let ended = go_over_all(rt, exchange, &mut receives, reports);
            *received = received_of(&receives.known);
            let is_done = has_all(&receives.known, exchange.count);
            drop(receives);
            match ended {
                Err(fault) if !is_done || !is_of_peer(&fault) => Err(fault),
                _ => Ok(()),
            }
        }
        Err(fault) => Err(fault),
    }
}

/// The messages of this exchange, with what the journal at this path says of earlier runs. What was printed and not noted is cut off.
fn receives_of<'a, R: AllocGlobal + Files>(
    rt: &R,
    exchange: &'a Exchange<'a>,
    path: &str,
) -> Result<Receives<'a, Journal<R::File>>, ExchangeFault> {
    let output = printed_to(rt, exchange.printed);
    let mut recalled = Recalled {
        known: ReceivedDoubts::new(rt.alloc()),
        last: LastPrint::NONE,
    };
    let recalled_so = recall_journal(rt, path, Role::Receiver, &mut recalled);
    let last = recalled.last;
    let known = recalled.into_known();
    let notes = match recalled_so {
        Ok(notes) => notes,
        Err(fault) => {
            drop(known);
            return Err(fault);
        }
    };
    let mut receives = Receives::with(rt.alloc(), exchange, notes, known);
    receives.output = output;
    match cut_unnoted(rt, output, last) {
        Ok(()) => Ok(receives),
        Err(error) => {
            drop(receives);
            Err(ExchangeFault::Out(error))
        }
    }
}

/// The file that messages are printed to, if they are.
fn printed_to<R: Files>(rt: &R, printed: Printed) -> Option<FileId> {
    match printed {
        Printed::Nothing => None,
        _ => output_file(rt),
    }
}

/// Cuts off what an earlier run printed to this file and did not note.
fn cut_unnoted<R: Files>(rt: &R, output: Option<FileId>, last: LastPrint) -> io::Result<()> {
    let Some(file) = output else {
        return Ok(());
    };
    match last.begins_in(file) {
        Some(length) => cut_output(rt, length),
        None => Ok(()),
    }
}

fn received_of(known: &ReceivedDoubts) -> Received {
    Received {
        count: known.count(),
        octets: known.octets(),
        unsettled: known.doubts() as u64,
    }
}

/// The peer is gone: what it has not settled is in doubt, and all else is done.
fn is_of_peer(fault: &ExchangeFault) -> bool {
    match fault {
        ExchangeFault::Socket(_)
        | ExchangeFault::NotMet(_, _)
        | ExchangeFault::Read(_)
        | ExchangeFault::Write(_)
        | ExchangeFault::NoPeer => true,
        ExchangeFault::Client(fault) => !is_ours(fault),
        _ => false,
    }
}

/// It says nothing of the peer: memory was refused, a journal is full, or the connection could not start.
fn is_ours(fault: &ClientFault) -> bool {
    matches!(
        fault,
        ClientFault::NoMemory
            | ClientFault::Start(_)
            | ClientFault::Refused(Refusal::NoMemory | Refusal::JournalFull)
            | ClientFault::Close(CloseRefusal::NoMemory)
            | ClientFault::Pump(PumpFault::Conn(ConnFault::NoMemory | ConnFault::JournalFull))
    )
}

impl<N: Notes> GoesOn for Receives<'_, N> {
    /// Each message was written out, and the sender knows of each that it is accepted.
    fn is_done(&self) -> bool {
        self.has_all() && self.known.doubts() == 0
    }

    fn has_all(&self) -> bool {
        has_all(&self.known, self.exchange.count)
    }

    fn noted(&self) -> u64 {
        self.notes.noted()
    }

    fn has_asked(&self) -> bool {
        self.link.has_asked(self.notes.noted())
    }

    fn forgo(&mut self) {
        self.link.forgo();
    }

    fn go_on<S: Flushes, T: Reports>(
        &mut self,
        session: &mut S,
        reports: &mut T,
    ) -> Result<(), ExchangeFault> {
        self.join(session)?;
        let mut count = self.known.count();
        let mut since = reports.elapsed();
        for _ in 0..u64::MAX {
            if self.step(session, reports)? {
                break;
            }
            if self.known.count() != count {
                count = self.known.count();
                since = reports.elapsed();
            }
            within(self.exchange.wait, reports.elapsed().saturating_sub(since))?;
            turn(session, &mut self.notes)?;
        }
        self.finish(session)
    }

    fn wind_up<S: Session, T: Reports>(
        &mut self,
        session: &mut S,
        is_fault_of_it: bool,
        reports: &mut T,
    ) -> Result<(), ExchangeFault> {
        // What came settled is taken, also if a fault ended the connection in the same piece.
        if is_fault_of_it && session.end().is_gone() {
            self.take_all(session, reports)?;
        }
        // Neither end keeps anything of a link that was detached for good, also if what came behind that is lost.
        if session.end().is_gone_for_good() {
            self.settle_all()?;
        }
        self.notes.sync()
    }
}

impl<'a, N: Notes> Receives<'a, N> {
    /// The messages of an exchange of which these notes know nothing yet.
    #[cfg(test)]
    pub(crate) fn new(alloc: Global, exchange: &'a Exchange<'a>, notes: N) -> Receives<'a, N> {
        Receives::with(alloc, exchange, notes, ReceivedDoubts::new(alloc))
    }

    /// The messages of an exchange of which so much is known.
    fn with(
        alloc: Global,
        exchange: &'a Exchange<'a>,
        notes: N,
        known: ReceivedDoubts,
    ) -> Receives<'a, N> {
        Receives {
            exchange,
            notes,
            known,
            alloc,
            link: Rejoining::new(Role::Receiver),
            output: None,
            is_output_noted: false,
        }
    }

    /// How many messages were taken.
    #[cfg(test)]
    pub(crate) fn count(&self) -> u64 {
        self.known.count()
    }

    /// Attaches the link, which brings in what is in doubt.
    fn join<S: Session>(&mut self, session: &mut S) -> Result<(), ExchangeFault> {
        self.known.bring()?;
        let tags = tags_of(self.alloc, &self.known)?;
        self.link
            .join(session, self.exchange, &mut self.notes, tags)
    }

    /// Takes what is there, and grants credit for more. True if nothing more is to come.
    fn step<S: Session, T: Reports>(
        &mut self,
        session: &mut S,
        reports: &mut T,
    ) -> Result<bool, ExchangeFault> {
        self.take_all(session, reports)?;
        self.look_brought(session)?;
        if self.has_all() && self.known.brought_len() == 0 {
            return Ok(true);
        }
        match self.renew(session) {
            Ok(()) => Ok(false),
            Err(fault) => Err(ExchangeFault::Client(fault)),
        }
    }

    /// The sender answers our detach after it has heard all outcomes. If it closes before, as agreed, it asks no more; if it leaves the link otherwise, it may ask
    /// again.
    fn finish<S: Session>(&mut self, session: &mut S) -> Result<(), ExchangeFault> {
        self.notes.sync()?;
        match finish_as_agreed(session) {
            Ok(()) => self.settle_all(),
            Err(fault) => Err(ExchangeFault::Client(fault)),
        }
    }

    /// Takes what is there, as far as it is asked for.
    fn take_all<S: Session, T: Reports>(
        &mut self,
        session: &mut S,
        reports: &mut T,
    ) -> Result<(), ExchangeFault> {
        for _ in 0..u64::MAX {
            if self.has_all() {
                break;
            }
            match take_or_left(session.end_mut()) {
                Ok(Some(taken)) => self.keep(session, taken, reports)?,
                Ok(None) => break,
                Err(fault) => return Err(ExchangeFault::Client(fault)),
            }
        }
        Ok(())
    }

    /// Prints the message, notes it, and then accepts it.
    fn keep<S: Session, T: Reports>(
        &mut self,
        session: &mut S,
        taken: Boxed<Taken>,
        reports: &mut T,
    ) -> Result<(), ExchangeFault> {
        let came = self.print(taken, reports)?;
        self.confirm()?;
        self.note_taken(came.tag, came.octets, came.is_settled)?;
        if !came.is_settled {
            // If the link is gone, the message stays in doubt.
            settle_as(session, came.id, DeliveryState::Accepted)?;
        }
        reports.note(self.known.count());
        Ok(())
    }

    /// Notes where the message is printed, and prints it.
    fn print<T: Reports>(
        &mut self,
        taken: Boxed<Taken>,
        reports: &mut T,
    ) -> Result<Came, ExchangeFault> {
        match self.note_print(taken.get()) {
            Ok(()) => show_taken(reports, taken),
            Err(fault) => {
                drop(taken);
                Err(fault)
            }
        }
    }

    /// Notes where a message begins in the output. One that came settled does not come again, so it is not to be cut off.
    fn note_print(&mut self, taken: &Taken) -> Result<(), ExchangeFault> {
        let Some(output) = self.output else {
            return Ok(());
        };
        if !self.is_output_noted {
            self.notes.note(&Line::Output(output))?;
            self.is_output_noted = true;
        }
        match output_length() {
            Some(length) if !taken.settled => self.notes.note(&Line::Printing(taken.tag, length)),
            _ => Ok(()),
        }
    }

    /// Notes that a message was printed, and if it came settled, that, too.
    fn note_taken(&mut self, tag: Tag, octets: u64, is_settled: bool) -> Result<(), ExchangeFault> {
        self.notes.note(&Line::Taken(tag, octets))?;
        self.known.take(tag, octets)?;
        if is_settled {
            self.known.settle(&tag);
            return self.notes.note(&Line::Settled(tag));
        }
        Ok(())
    }

    /// Notes that a message came. If it came by newer credit, its sender has heard what was sent before that.
    fn confirm(&mut self) -> Result<(), ExchangeFault> {
        match self.known.confirmed() {
            Some(count) => self.settle_told(count),
            None => Ok(()),
        }
    }

    /// Notes that the sender has heard the outcome of so many messages.
    fn settle_told(&mut self, count: usize) -> Result<(), ExchangeFault> {
        for _ in 0..count {
            match self.known.pop_told() {
                Some(tag) => self.notes.note(&Line::Settled(tag))?,
                None => break,
            }
        }
        Ok(())
    }

    /// Notes that nothing is in doubt any more.
    fn settle_all(&mut self) -> Result<(), ExchangeFault> {
        for _ in 0..self.known.brought_len() {
            match self.known.pop_brought() {
                Some(tag) => self.notes.note(&Line::Settled(tag))?,
                None => break,
            }
        }
        let count = self.known.told_len();
        self.settle_told(count)
    }

    /// Looks, once round, for what was brought in and waits no longer: the sender has not named it, or has resumed it, settled or not.
    fn look_brought<S: Session>(&mut self, session: &mut S) -> Result<(), ExchangeFault> {
        for _ in 0..self.known.brought_len() {
            match self.known.pop_brought() {
                Some(tag) => self.look_at(session, tag)?,
                None => break,
            }
        }
        Ok(())
    }

    /// Looks whether the delivery with this tag waits no longer.
    fn look_at<S: Session>(&mut self, session: &mut S, tag: Tag) -> Result<(), ExchangeFault> {
        let end = session.end();
        if end.is_gone() || end.waits(&tag) {
            return Ok(self.known.keep_brought(tag)?);
        }
        match end.held(&tag) {
            Some(id) => {
                self.known.tell(tag)?;
                settle_as(session, id, DeliveryState::Accepted)?;
                Ok(())
            }
            None => self.notes.note(&Line::Settled(tag)),
        }
    }

    /// Grants credit again: first for what waits to be resumed, and then for what is still wanted, as far as an attach can name what is then in doubt.
    fn renew<S: Session>(&mut self, session: &mut S) -> Result<(), ClientFault> {
        if session.end().is_gone() {
            return Ok(());
        }
        let incoming = incoming_of(session.end());
        if let Some(credit) = self.credit_due(session.end(), incoming) {
            grant(session, credit)?;
            self.known
                .set_mark(incoming.credit.saturating_add(incoming.ready));
        }
        Ok(())
    }

    fn credit_due(&self, end: &End, incoming: Incoming) -> Option<u32> {
        let waiting = end.waiting_len();
        if waiting > 0 {
            return credit_due(
                waiting,
                0,
                incoming,
                self.exchange.credit,
                self.exchange.renewal,
            );
        }
        // What came by the credit before is in doubt until something comes by this one.
        let most = most_in_doubt(end).saturating_sub(self.known.brought_len()) / 2;
        let most = u32::try_from(most.max(1)).unwrap_or(u32::MAX);
        credit_due(
            self.exchange.count,
            self.known.count(),
            incoming,
            self.exchange.credit.min(most),
            self.exchange.renewal,
        )
    }
}

/// The next message that is there. Of what a link left that is gone only what came settled: the peer has all else.
fn take_or_left(end: &mut End) -> Result<Option<Boxed<Taken>>, ClientFault> {
    match end.take_ready() {
        Ok(None) if end.is_gone() => {}
        taken => return taken,
    }
    for _ in 0..u64::MAX {
        match end.take_last() {
            Ok(Some(taken)) if !taken.get().settled => drop(taken),
            left => return left,
        }
    }
    Ok(None)
}

/// Ends link, session and connection, none of which the sender leaves otherwise.
fn finish_as_agreed<S: Session>(session: &mut S) -> Result<(), ClientFault> {
    session.end().unless_aside()?;
    finish(session)?;
    if session.end().conn().ended_by().is_some() {
        return Err(ClientFault::Ended);
    }
    session.end().unless_aside()
}
