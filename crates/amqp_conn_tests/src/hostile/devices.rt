//! A pump over devices of which one call fails, each call in turn: the failure is told, the same call goes on behind it, and the session ends as it would
//! have. The devices move so many octets at a time, one as well as a whole unit.

use crate::device::{AMPLE, Plan, Reads, Writes};
use crate::hostile::peer::{Script, Step, connection, does};
use crate::hostile::sessions::{IN_PARTS, SESSIONS};
use amqp_conn::*;
use std::alloc::Global;

/// Counts what the journal's entries give.
#[derive(Drop)]
struct Counts {
    given: u32,
}

impl Hears for Counts {
    ghost use Rattle.std.specs.Prelude.{None};

    ghost heard = { λ c. None };

    fn hear(&mut self, given: Given) {
        drop(given);
        self.given = self.given.wrapping_add(1);
    }
}

/// What stays from one call of the pump to the next.
#[derive(Drop)]
struct Rig {
    pump: Pump,
    sink: FromStd<Writes>,
    each: Counts,
}

/// What came of a run.
#[derive(Clone, Copy)]
struct Ran {
    closed: bool,
    /// Nothing was kept that was not fed, where a call failed.
    empty: bool,
    /// How many reads there were.
    reads: u32,
    /// How many calls of the pump told that a read failed, and how many that a write did, where the device had its error.
    bad_reads: u32,
    bad_writes: u32,
    /// Numbers of refusals of ours, and how many feeds told a fault.
    other: u32,
}

fn has_error<T>(device: &mut FromStd<T>) -> u32 {
    u32::from(device.take_error().is_some())
}

/// One call of the pump.
fn drive(
    conn: &mut Conn,
    rig: &mut Rig,
    source: &mut FromStd<Reads>,
) -> Result<PumpEnd, PumpFault> {
    // No run makes so many calls, but no proof knows that.
    if Source::failures(source) == u64::MAX || Sink::failures(&rig.sink) == u64::MAX {
        return Err(PumpFault::Conn(ConnFault::NoMemory));
    }
    rig.pump
        .drive(source, &mut rig.sink, conn, &mut rig.each, 999)
}

/// One call of the pump: whether a device failed, so that the same call is to be made again.
fn drives(conn: &mut Conn, rig: &mut Rig, source: &mut FromStd<Reads>, ran: &mut Ran) -> bool {
    let end = drive(conn, rig, source);
    ran.empty = ran.empty && rig.pump.rest().is_empty();
    match end {
        Ok(end) => {
            ran.closed = end == PumpEnd::Closed;
            false
        }
        Err(PumpFault::Read) => {
            ran.bad_reads = ran.bad_reads.wrapping_add(has_error(source));
            true
        }
        Err(PumpFault::Write) => {
            ran.bad_writes = ran.bad_writes.wrapping_add(has_error(&mut rig.sink));
            true
        }
        Err(PumpFault::Conn(_)) => {
            ran.other = ran.other.wrapping_add(1);
            false
        }
    }
}

/// The octets of the frame, to their end or that of the connection.
fn drives_frame(conn: &mut Conn, rig: &mut Rig, octets: &'static [u8], plan: Plan, ran: &mut Ran) {
    let mut source = FromStd::new(Reads {
        octets,
        plan,
        calls: ran.reads,
    });
    for _ in 0..3 {
        if !drives(conn, rig, &mut source, ran) {
            break;
        }
    }
    ran.reads = source.into_inner().calls;
}

fn fresh(plan: Plan) -> Rig {
    Rig {
        pump: Pump::new(),
        sink: FromStd::new(Writes::new(plan)),
        each: Counts { given: 0 },
    }
}

/// What came of a whole run: how many octets were written or missed, and their sum; how many entries were told; how many reads and writes there were.
#[derive(Clone, Copy)]
struct Sums {
    octets: usize,
    sum: u32,
    given: u32,
    reads: u32,
    writes: u32,
}

/// None where the session did not end as it should, or a failure was not told.
fn judged(writes: &Writes, given: u32, plan: Plan, ran: Ran) -> Option<Sums> {
    let good = ran.closed
        && ran.empty
        && ran.other == 0
        && ran.bad_reads == u32::from(plan.read != 0)
        && ran.bad_writes == u32::from(plan.write != 0)
        && (writes.missed != 0) == (plan.write != 0);
    if good {
        Some(Sums {
            octets: writes.count.wrapping_add(writes.missed),
            sum: writes.sum,
            given,
            reads: ran.reads,
            writes: writes.calls,
        })
    } else {
        None
    }
}

fn goes(alloc: Global, conn: &mut Conn, rig: &mut Rig, script: Script, plan: Plan) -> Ran {
    let mut ran = Ran {
        closed: false,
        empty: true,
        reads: 0,
        bad_reads: 0,
        bad_writes: 0,
        other: 0,
    };
    for step in script {
        match step {
            Step::Hears(octets) => drives_frame(conn, rig, octets, plan, &mut ran),
            Step::Does(act) => ran.other = ran.other.wrapping_add(does(alloc, conn, *act)),
        }
    }
    ran
}

/// The session of a connection over these devices.
fn driven(alloc: Global, conn: &mut Conn, script: Script, plan: Plan) -> Option<Sums> {
    let mut rig = fresh(plan);
    let ran = goes(alloc, conn, &mut rig, script, plan);
    let given = rig.each.given;
    let writes = rig.sink.into_inner();
    judged(&writes, given, plan, ran)
}

/// The same of a new connection.
fn runs(alloc: Global, script: Script, plan: Plan) -> Option<Sums> {
    match connection(alloc, 99) {
        Some(mut conn) => {
            let sums = driven(alloc, &mut conn, script, plan);
            drop(conn);
            sums
        }
        None => None,
    }
}

/// The session ends as it does without a failure: the same is written, but for what a failed write missed, and the same is told.
fn ends_so(alloc: Global, script: Script, plan: Plan, due: Sums) -> bool {
    match runs(alloc, script, plan) {
        Some(sums) => {
            sums.octets == due.octets && sums.sum == due.sum && sums.given == due.given
        }
        None => false,
    }
}

/// How many reads and writes may fail so, in turn; none where devices that move a whole frame make another session.
fn failing(alloc: Global, script: Script, size: usize) -> u32 {
    let Some(due) = runs(alloc, script, AMPLE) else {
        return 0;
    };
    let mut plan = Plan {
        size,
        read: 0,
        write: 0,
    };
    let Some(plain) = runs(alloc, script, plan) else {
        return 0;
    };
    let mut so = 0u32;
    for call in 0..plain.reads.wrapping_add(plain.writes) {
        if call < plain.reads {
            plan.read = call.wrapping_add(1);
        } else {
            plan.read = 0;
            plan.write = call.wrapping_sub(plain.reads).wrapping_add(1);
        }
        so = so.wrapping_add(u32::from(ends_so(alloc, script, plan, due)));
    }
    so
}

/// How many calls fail in turn of each session, with devices that move so many octets at once. The reads at the end of each frame are among them.
const CALLS: &[(usize, u32)] = &[(9, 238), (4096, 116)];

/// The same of all sessions together.
fn of_all(alloc: Global, size: usize) -> u32 {
    let mut sum = 0u32;
    for (script, _, _) in SESSIONS {
        sum = sum.wrapping_add(failing(alloc, script, size));
    }
    sum
}

/// 141 reads and 97 writes of nine octets; 78 and 38 of whole frames.
#[test]
fn each_call_of_the_devices_fails(rt: HostRuntime) {
    for (size, calls) in CALLS {
        assert!(rt; of_all(rt.alloc(), *size) == *calls);
    }
}

/// 227 reads and 193 writes of one octet, in the session with three transfers.
#[test]
fn each_octet_of_the_devices_fails(rt: HostRuntime) {
    assert!(rt; failing(rt.alloc(), IN_PARTS, 1) == 420);
}

/// Header, open, a frame whose data offset is too small, and a close.
const FAULTY: &[u8] =
    b"AMQP\x00\x01\x00\x00\x00\x00\x00\x1a\x02\x00\x00\x00\x00S\x10\xc0\x0d\x04\xa1\x01b@p\x00\x01\x00\x00`\x00\x00\x00\x00\x00\x0c\x01\x00\x00\x00\x00S\x17E\x00\x00\x00\x0c\x02\x00\x00\x00\x00S\x18E";

/// Which write fails, and how the pump ends then. Our header goes out first, and our open and the close behind the fault.
const KEPT: &[(u32, PumpFault)] = &[
    (0, PumpFault::Conn(ConnFault::Framing(FrameFault::BadDoff))),
    (2, PumpFault::Write),
    (3, PumpFault::Write),
];

/// The pump ends so, and keeps the octets from the faulty frame on; the same call then writes the units that are left.
fn keeps(conn: &mut Conn, rig: &mut Rig, plan: Plan, due: PumpFault) -> bool {
    let mut source = FromStd::new(Reads {
        octets: FAULTY,
        plan,
        calls: 0,
    });
    let first = drive(conn, rig, &mut source);
    let kept = rig.pump.rest().len();
    let then = drive(conn, rig, &mut source);
    first == Err(due) && kept == 24 && then == Ok(PumpEnd::Closed) && rig.pump.rest().is_empty()
}

/// The same of a new connection.
fn is_kept(alloc: Global, write: u32, due: PumpFault) -> bool {
    let plan = Plan {
        size: 4096,
        read: 0,
        write,
    };
    match connection(alloc, 99) {
        Some(mut conn) => {
            let mut rig = fresh(plan);
            let so = keeps(&mut conn, &mut rig, plan, due);
            drop(rig);
            drop(conn);
            so
        }
        None => false,
    }
}

#[test]
fn what_was_read_behind_a_fault_is_kept(rt: HostRuntime) {
    for (write, due) in KEPT {
        assert!(rt; is_kept(rt.alloc(), *write, *due));
    }
}
