//! One thread reads an end's octets from its socket and feeds them, and opens the end as the peer's answers allow.
use crate::end::End;
use crate::gate::{Gate, Opening};
use crate::inbox::Inbox;
use crate::keeping::make_room;
use amqp_conn::{ConnFault, Octets, Phase};
use amqp_frames::Role;
use amqp_policy::is_window_due;
use amqp_rules::op::Op;
use amqp_rules::refusal::Refusal;
use amqp_rules::status::LinkPhase;
use amqp_shared::{Guard, Name, Pass, Shared};
use amqp_types::Text;
use bytes::Bytes;
use std::alloc::Global;
use std::io;
use std::net::{OpenStream, Shutdown, TcpStream};
use std::sync::{Arc, Wait};
use thiserror::Error;

/// The one link of the session.
pub const LINK: u32 = 0;

/// The incoming window, in transfers.
pub const WINDOW: u32 = 2048;

/// How far the session has come that an end opens.
#[derive(Clone, Copy)]
enum Stage {
    /// The peer's open is awaited.
    Opens,
    /// Our begin went out.
    Begins,
    /// Our attach went out.
    Attaches,
    /// Nothing more is to be done but to take what comes.
    Runs,
}

/// What an end is to do at its beginning.
#[derive(Clone, Copy)]
pub struct Beginning {
    /// Its role on the one link.
    pub role: Role,
    /// The credit that a receiver grants first.
    pub credit: u32,
    /// How many entries of its journal it keeps at most, when it has fed what was read; none: all.
    pub keep: Option<u32>,
}

/// What a reader's thread starts with.
#[derive(Drop)]
pub struct Reader<N: Name> {
    pub alloc: Global,
    pub pass: Pass<N>,
    pub stream: TcpStream,
    pub beginning: Beginning,
    pub gate: Arc<Gate>,
}

/// What a reader's thread hands back.
pub type ReadOutcome<N> = (Pass<N>, Result<(), ReadFault>);

/// Why an end no longer reads, but that its connection has ended.
#[derive(Debug, Drop, Error)]
pub enum ReadFault {
    #[error("a read failed: {0}")]
    Read(io::Error),
    #[error("the octets ended before the connection did")]
    EndOfInput,
    #[error("{0}")]
    Conn(ConnFault),
    #[error("an operation was refused: {0}")]
    Refused(Refusal),
    #[error("memory was refused")]
    NoMemory,
}

impl ReadFault {
    /// The connection has put out a close for it.
    fn is_answered(&self) -> bool {
        match self {
            ReadFault::Conn(ConnFault::NoMemory) => false,
            ReadFault::Conn(_) => true,
            _ => false,
        }
    }
}

/// One end, as its reader sees it.
struct Reading<'a, N: Name> {
    alloc: Global,
    end: &'a End<N>,
    pass: Pass<N>,
    beginning: Beginning,
    stage: Stage,
}

/// Reads and feeds until the connection has ended; where it has not and the octets end, a read fails, an operation is refused, or memory is wanting,
/// the end is lost. The gate is told as soon as the end is ready, or that it has ended before.
pub fn read_end<N: Name, R: Wait>(rt: &R, end: &End<N>, reader: Reader<N>) -> ReadOutcome<N> {
    let Reader {
        alloc,
        pass,
        stream,
        beginning,
        gate,
    } = reader;
    let mut stream = stream;
    let mut reading = Reading {
        alloc,
        end,
        pass,
        beginning,
        stage: Stage::Opens,
    };
    let read = match reading.read_all(rt, &mut stream, &gate) {
        Ok(()) => Ok(()),
        Err(fault) => end_by(rt, &end.shared, &stream, fault),
    };
    gate.tell(rt, Opening::Failed);
    end.outlet.end(rt);
    let Reading {
        alloc: _,
        end: _,
        pass,
        beginning: _,
        stage: _,
    } = reading;
    (pass, read)
}

/// Ends the connection and its socket after the fault, so that no thread of either end waits on. Where the connection had ended before, its octets
/// ended for that, and there is no fault. A fault that the connection has answered with a close leaves the socket to the writer.
fn end_by<N: Name, R: Wait, S: OpenStream>(
    rt: &R,
    shared: &Shared<N>,
    stream: &S,
    fault: ReadFault,
) -> Result<(), ReadFault> {
    if fault.is_answered() {
        return Err(fault);
    }
    let mut guard = shared.lock(rt);
    let has_ended = guard.conn().phase() == Phase::Closed;
    shared.lost(&mut guard);
    drop(guard);
    // A socket that is shut already needs no more.
    let _ = stream.shutdown(Shutdown::Both);
    if has_ended { Ok(()) } else { Err(fault) }
}

impl<'a, N: Name> Reading<'a, N> {
    fn read_all<R: Wait, S: io::Read>(
        &mut self,
        rt: &R,
        stream: &mut S,
        gate: &Gate,
    ) -> Result<(), ReadFault> {
        let mut inbox = Inbox::new(self.alloc);
        let read = self.read_into(rt, &mut inbox, stream, gate);
        drop(inbox);
        read
    }

    fn read_into<R: Wait, S: io::Read>(
        &mut self,
        rt: &R,
        inbox: &mut Inbox,
        stream: &mut S,
        gate: &Gate,
    ) -> Result<(), ReadFault> {
        for _ in rt.forever() {
            let octets = inbox.read_frames(rt, stream)?;
            if self.take_frames(rt, octets, gate)? {
                return Ok(());
            }
        }
        unreachable!()
    }

    /// Takes whole frames in, and tells the gate where the end is ready with them. Whether the connection has ended.
    fn take_frames<R: Wait>(
        &mut self,
        rt: &R,
        octets: Bytes,
        gate: &Gate,
    ) -> Result<bool, ReadFault> {
        let opens = self.stage != Stage::Runs;
        let taken = self.take_in(rt, &octets);
        drop(octets);
        if opens && self.stage == Stage::Runs && matches!(taken, Ok(false)) {
            gate.tell(rt, Opening::Ready);
        }
        taken
    }

    /// Feeds octets, and does what the session allows behind them; what is put out by either is written by the thread beside this one. Whether the connection
    /// has ended.
    fn take_in<R: Wait>(&mut self, rt: &R, octets: &Bytes) -> Result<bool, ReadFault> {
        let mut guard = self.end.shared.lock(rt);
        let before = guard.conn().logged().put_out();
        let taken = self.feed_and_go_on(rt, &mut guard, octets);
        let is_more = before < guard.conn().logged().put_out();
        drop(guard);
        if is_more && taken.is_ok() {
            self.end.outlet.ask(rt);
        }
        taken
    }

    fn feed_and_go_on<R: Wait>(
        &mut self,
        rt: &R,
        guard: &mut Guard<'_, N>,
        octets: &Bytes,
    ) -> Result<bool, ReadFault> {
        self.feed_piece(rt, guard, octets)?;
        let has_ended = guard.conn().phase() == Phase::Closed;
        if !has_ended {
            self.go_on(guard)?;
            make_room(&self.end.shared, guard, self.beginning.keep);
        }
        Ok(has_ended)
    }

    /// Feeds all octets, or as many as there are before the connection ends.
    fn feed_piece<R: Wait>(
        &mut self,
        rt: &R,
        guard: &mut Guard<'_, N>,
        octets: &Bytes,
    ) -> Result<(), ReadFault> {
        let mut from = 0;
        for _ in rt.forever() {
            if from >= octets.len() {
                return Ok(());
            }
            let piece = Octets::shared(octets, from);
            match self.end.shared.feed(guard, &mut self.pass, &piece) {
                Ok(fed) => from = from.saturating_add(fed.used),
                Err(ConnFault::Closed) => return Ok(()),
                Err(fault) => return Err(ReadFault::Conn(fault)),
            }
        }
        unreachable!()
    }

    /// Does what the session allows now: begins, attaches, grants, and renews the window where half of it is used.
    fn go_on(&mut self, guard: &mut Guard<'_, N>) -> Result<(), ReadFault> {
        if self.stage == Stage::Opens && guard.conn().phase() == Phase::Running {
            self.does(guard, &Op::Begin)?;
            self.stage = Stage::Begins;
        }
        if self.stage == Stage::Begins && self.attach(guard)? {
            self.stage = Stage::Attaches;
        }
        if self.stage == Stage::Attaches && is_attached(guard) {
            self.grant(guard)?;
            self.stage = Stage::Runs;
        }
        if self.stage == Stage::Runs
            && is_window_due(guard.conn().logged().endpoint().windows().incoming, WINDOW)
        {
            self.does(guard, &Op::Refresh { echo: false })?;
        }
        Ok(())
    }

    /// Attaches the link: whether it was not too early for it.
    fn attach(&mut self, guard: &mut Guard<'_, N>) -> Result<bool, ReadFault> {
        let Ok(name) = Text::new(self.alloc, "q") else {
            return Err(ReadFault::NoMemory);
        };
        let attach = Op::Attach {
            name,
            role: self.beginning.role,
            snd: 2,
            rcv: 0,
            source: None,
            target: None,
            count: 0,
            max_message: 0,
        };
        self.does(guard, &attach)
    }

    fn grant(&mut self, guard: &mut Guard<'_, N>) -> Result<(), ReadFault> {
        if self.beginning.role == Role::Receiver {
            let grant = Op::Grant {
                link: LINK,
                credit: self.beginning.credit,
                drain: false,
                echo: false,
            };
            self.does(guard, &grant)?;
        }
        Ok(())
    }

    /// Does the operation: whether it was not too early for it.
    fn does(&mut self, guard: &mut Guard<'_, N>, op: &Op) -> Result<bool, ReadFault> {
        match self.end.shared.call(guard, &mut self.pass, op) {
            Ok(_) => Ok(true),
            Err(Refusal::NotMapped | Refusal::NotRunning) => Ok(false),
            Err(refusal) => Err(ReadFault::Refused(refusal)),
        }
    }
}

fn is_attached<N: Name>(guard: &Guard<'_, N>) -> bool {
    match guard.conn().logged().endpoint().status(LINK) {
        Some(status) => status.phase == LinkPhase::Attached,
        None => false,
    }
}
