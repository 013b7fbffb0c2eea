//! What an end of a connection does that is measured: it opens, and then sends messages, or accepts them.
ghost use Rattle.std.specs.Prelude.{◌≡◌};

use crate::session::Messages;
use amqp_conn::{
    Bytes, CloseRefusal, Conn, DeliveryState, Given, Op, Phase, Refusal, Role, Tag, Text,
};
use amqp_endpoint::status::LinkPhase;
use amqp_policy::{has_more, part};
use amqp_ready::{ANSWERS, Handler, Lent, Next};
use std::alloc::Global;

/// The one link of the session.
const LINK: u32 = 0;

/// How many octets of a payload go in one transfer at most, so that the frame is not too long.
const PART: usize = 65472;

/// So many octets are begun before they are written, or one message.
const RUN: u32 = 65536;

/// How far an end has come.
#[derive(Clone, Copy)]
enum Stage {
    Opens,
    Begins,
    Attaches,
    Runs,
    Closes,
}

/// What an end has done.
#[derive(Clone, Copy)]
pub struct Counts {
    pub begun: u32,
    pub learnt: u32,
    pub taken: u32,
    pub octets: u64,
}

/// A connection that operations are done on, whoever has it.
pub trait Operated {
    ghost use Rattle.std.specs.Prelude.{Option};
    ghost use Rattle.amqp_ready.specs.Lending.{Kept};

    /// What stays of it, where it is lent.
    ghost stays: { Self → Option Kept };

    fn conn(&self) -> &Conn;

    fn perform(&mut self, op: Op) -> Result<(), Refusal>
        ensures { stays self.new ≡ stays self.old };

    fn close(&mut self) -> Result<(), CloseRefusal>
        ensures { stays self.new ≡ stays self.old };

    fn forget(&mut self)
        ensures { stays self.new ≡ stays self.old };
}

impl Operated for Conn {
    ghost use Rattle.std.specs.Prelude.{None};

    ghost stays = { λ c. None };

    fn conn(&self) -> &Conn {
        self
    }

    fn perform(&mut self, op: Op) -> Result<(), Refusal> {
        Conn::perform(self, op)
    }

    fn close(&mut self) -> Result<(), CloseRefusal> {
        Conn::close(self, None)
    }

    fn forget(&mut self) {
        Conn::forget(self);
    }
}

impl Operated for Lent {
    ghost use Rattle.std.specs.Prelude.{Some};
    ghost use Rattle.amqp_ready.specs.Lending.{kept};

    ghost stays = { λ l. Some (kept l.conn) };

    fn conn(&self) -> &Conn {
        Lent::conn(self)
    }

    fn perform(&mut self, op: Op) -> Result<(), Refusal> {
        Lent::perform(self, op)
    }

    fn close(&mut self) -> Result<(), CloseRefusal> {
        Lent::close(self, None)
    }

    fn forget(&mut self) {
        Lent::forget(self);
    }
}

/// An end's part of its connection.
#[derive(Drop)]
pub struct Hand {
    alloc: Global,
    role: Role,
    messages: Messages,
    payload: Bytes,
    stage: Stage,
    counts: Counts,
    /// The ids that were taken since the last disposition.
    fresh: Option<(u32, u32)>,
    /// How many deliveries were taken since credit was granted.
    used: u32,
}

impl Hand {
    pub fn new(alloc: Global, role: Role, messages: Messages, payload: Bytes) -> Hand {
        Hand {
            alloc,
            role,
            messages,
            payload,
            stage: Stage::Opens,
            counts: Counts {
                begun: 0,
                learnt: 0,
                taken: 0,
                octets: 0,
            },
            fresh: None,
            used: 0,
        }
    }

    pub fn counts(&self) -> Counts {
        self.counts
    }

    /// Begins, attaches and grants, as the peer's answers allow.
    fn open<C: Operated>(&mut self, conn: &mut C) -> Result<(), Refusal>
        ensures { C.stays conn.new ≡ C.stays conn.old }
    {
        if self.stage == Stage::Opens && conn.conn().phase() == Phase::Running {
            conn.perform(Op::Begin)?;
            self.stage = Stage::Begins;
        }
        if self.stage == Stage::Begins && self.attach(conn)? {
            self.stage = Stage::Attaches;
        }
        if self.stage == Stage::Attaches && is_attached(conn.conn()) {
            self.stage = Stage::Runs;
            return self.grant(conn);
        }
        Ok(())
    }

    /// Attaches the link: whether it was not too early for it.
    fn attach<C: Operated>(&self, conn: &mut C) -> Result<bool, Refusal>
        ensures { C.stays conn.new ≡ C.stays conn.old }
    {
        let Ok(name) = Text::new(self.alloc, "messages") else {
            return Err(Refusal::NoMemory);
        };
        let done = conn.perform(Op::Attach {
            name,
            role: self.role,
            snd: u8::from(self.messages.settled),
            rcv: 0,
            source: None,
            target: None,
            count: 0,
            max_message: 0,
        });
        match done {
            Ok(()) => Ok(true),
            Err(Refusal::NotMapped | Refusal::NotRunning) => Ok(false),
            Err(refusal) => Err(refusal),
        }
    }

    /// Grants all credit anew, where we receive.
    fn grant<C: Operated>(&mut self, conn: &mut C) -> Result<(), Refusal>
        ensures { C.stays conn.new ≡ C.stays conn.old }
    {
        if self.role == Role::Sender {
            return Ok(());
        }
        self.used = 0;
        conn.perform(Op::Grant {
            link: LINK,
            credit: self.messages.credit,
            drain: false,
            echo: false,
        })
    }

    /// Learns what was told, and begins messages while there is credit: whether it would begin more.
    fn send<C: Operated>(&mut self, conn: &mut C) -> Result<bool, Refusal>
        ensures { C.stays conn.new ≡ C.stays conn.old }
    {
        if !self.messages.settled {
            self.learn(conn)?;
        }
        let left = self.messages.count.saturating_sub(self.counts.begun);
        let possible = left.min(credit_of(conn.conn()));
        let run = possible.min(self.run());
        for _ in 0..run {
            self.start(conn)?;
        }
        if self.is_done() {
            self.stage = Stage::Closes;
            if conn.close().is_err() {
                return Err(Refusal::NotRunning);
            }
        }
        Ok(possible > run)
    }

    /// How many messages are begun before they are written.
    fn run(&self) -> u32 {
        (RUN / self.messages.size.saturating_add(48).min(RUN)).max(1)
    }

    fn is_done(&self) -> bool {
        let all = self.messages.count;
        self.counts.begun == all && (self.messages.settled || self.counts.learnt == all)
    }

    fn learn<C: Operated>(&mut self, conn: &mut C) -> Result<(), Refusal>
        ensures { C.stays conn.new ≡ C.stays conn.old }
    {
        for _ in self.counts.learnt..self.counts.begun {
            match conn.perform(Op::Learn { link: LINK }) {
                Ok(()) => self.counts.learnt = self.counts.learnt.saturating_add(1),
                Err(Refusal::Nothing) => return Ok(()),
                Err(refusal) => return Err(refusal),
            }
            self.make_room(conn);
        }
        Ok(())
    }

    /// Begins a message, whose tag is its number, and carries the rest of it.
    fn start<C: Operated>(&mut self, conn: &mut C) -> Result<(), Refusal>
        ensures { C.stays conn.new ≡ C.stays conn.old }
    {
        let Some(tag) = Tag::new(&self.counts.begun.to_be_bytes()) else {
            return Err(Refusal::NotWritable);
        };
        let length = self.payload.len();
        let payload = self.part(0)?;
        conn.perform(Op::Start {
            link: LINK,
            tag,
            format: 0,
            settled: self.messages.settled,
            payload,
            more: has_more(length, 0, PART),
        })?;
        self.counts.begun = self.counts.begun.saturating_add(1);
        self.make_room(conn);
        self.carry_all(conn, length)
    }

    fn part(&self, from: usize) -> Result<Bytes, Refusal> {
        match part(&self.payload, from, PART) {
            Ok(part) => Ok(part),
            Err(_) => Err(Refusal::NoMemory),
        }
    }

    /// Sends the rest of a message of so many octets, in as many transfers as it needs.
    fn carry_all<C: Operated>(&self, conn: &mut C, length: usize) -> Result<(), Refusal>
        ensures { C.stays conn.new ≡ C.stays conn.old }
    {
        let mut from = PART;
        for _ in 0..u64::MAX {
            if from >= length {
                break;
            }
            let payload = self.part(from)?;
            conn.perform(Op::Carry {
                link: LINK,
                payload,
                more: has_more(length, from, PART),
            })?;
            from = from.saturating_add(PART);
        }
        Ok(())
    }

    /// Takes a delivery that is ready.
    fn take_one<C: Operated>(&mut self, conn: &mut C) -> Result<(), Refusal>
        ensures { C.stays conn.new ≡ C.stays conn.old }
    {
        conn.perform(Op::Take { link: LINK })?;
        if let Some(Given::Taken(taken)) = conn.conn().given() {
            let taken = taken.get();
            self.counts.taken = self.counts.taken.saturating_add(1);
            let count = taken.payload.len();
            self.counts.octets = self.counts.octets.saturating_add(count);
            let first = match self.fresh {
                Some((first, _)) => first,
                None => taken.id,
            };
            self.fresh = Some((first, taken.id));
            self.used = self.used.saturating_add(1);
        }
        self.make_room(conn);
        Ok(())
    }

    /// Accepts and settles what was taken, and renews the credit where half of it is used.
    fn settle<C: Operated>(&mut self, conn: &mut C) -> Result<(), Refusal>
        ensures { C.stays conn.new ≡ C.stays conn.old }
    {
        if let Some((first, last)) = self.fresh {
            self.fresh = None;
            if !self.messages.settled {
                dispose(conn, first, last)?;
            }
        }
        if self.is_half_used() && self.counts.taken < self.messages.count && !lags(conn.conn()) {
            self.grant(conn)?;
        }
        Ok(())
    }

    /// As many deliveries were taken as a disposition is to name.
    fn is_range_full(&self) -> bool {
        match self.fresh {
            Some((first, last)) => last.wrapping_sub(first)
                >= self.messages.range.saturating_sub(1),
            None => false,
        }
    }

    fn is_half_used(&self) -> bool {
        self.used >= self.messages.credit.div_ceil(2)
    }

    /// Forgets the journal's entries where as many stand as are kept.
    fn make_room<C: Operated>(&self, conn: &mut C)
        ensures { C.stays conn.new ≡ C.stays conn.old }
    {
        if let Some(most) = self.messages.keep {
            if conn.conn().logged().journal().len() >= most as usize {
                conn.forget();
            }
        }
    }

    /// Is told what an entry gave that the peer's octets made: whether what waits is to be written before more is heard.
    pub fn receive<C: Operated>(&mut self, conn: &mut C, given: Given) -> Result<bool, Refusal>
        ensures { C.stays conn.new ≡ C.stays conn.old }
    {
        let is_ready = matches!(&given, Given::Ready(_, _));
        drop(given);
        if !is_ready {
            self.make_room(conn);
            return Ok(false);
        }
        self.take_one(conn)?;
        if self.is_half_used() {
            self.settle(conn)?;
            return Ok(true);
        }
        if self.is_range_full() {
            self.settle(conn)?;
        }
        Ok(false)
    }

    /// Does what is to be done now: whether there is more of it, once what waits is written.
    pub fn advance<C: Operated>(&mut self, conn: &mut C) -> Result<bool, Refusal>
        ensures { C.stays conn.new ≡ C.stays conn.old }
    {
        if conn.conn().phase() != Phase::Running || self.stage == Stage::Closes {
            return Ok(false);
        }
        if self.stage != Stage::Runs {
            self.open(conn)?;
        }
        if self.stage != Stage::Runs {
            return Ok(false);
        }
        if self.role == Role::Sender {
            return self.send(conn);
        }
        self.settle(conn)?;
        Ok(false)
    }
}

impl Handler for Hand {
    ghost use Rattle.std.specs.Prelude.{None};

    ghost told = { λ h. None };

    fn take(&mut self, conn: &mut Lent, given: Given) -> Result<Next, Refusal> {
        if self.receive(conn, given)? {
            return Ok(Next::Write);
        }
        Ok(Next::Feed)
    }

    fn go_on(&mut self, conn: &mut Lent) -> Result<bool, Refusal> {
        self.advance(conn)
    }
}

/// The peer does not read, or not so fast: it gets no credit meanwhile.
fn lags(conn: &Conn) -> bool {
    conn.logged().waiting_octets() >= ANSWERS
}

fn dispose<C: Operated>(conn: &mut C, first: u32, last: u32) -> Result<(), Refusal>
    ensures { C.stays conn.new ≡ C.stays conn.old }
{
    conn.perform(Op::Dispose {
        role: Role::Receiver,
        first,
        last,
        settled: true,
        state: Some(DeliveryState::Accepted),
    })
}

fn credit_of(conn: &Conn) -> u32 {
    match conn.logged().endpoint().status(LINK) {
        Some(status) => status.credit,
        None => 0,
    }
}

fn is_attached(conn: &Conn) -> bool {
    match conn.logged().endpoint().status(LINK) {
        Some(status) => status.phase == LinkPhase::Attached,
        None => false,
    }
}
